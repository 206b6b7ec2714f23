//! One word, and lists of words.
use std::alloc::{AllocError, Global};
use std::marker::Model;

/// One word of a command; contracts see its bytes.
#[derive(Debug, Drop)]
pub struct Word {
    text: String,
}

impl Model for Word {
    ghost use Rattle.std.specs.Prelude.{ℕ, List, string_bytes};

    ghost Value = { List ℕ };

    ghost view = { λ w. string_bytes w.text };
}

impl Word {
    ghost use Rattle.std.specs.Prelude.{◌≡◌, IfOk};

    /// A word with this text.
    pub fn from_text(alloc: Global, text: &str) -> Result<Word, AllocError>
        ensures { IfOk result (λ word. word ≡ text.now) }
    {
        Ok(Word {
            text: String::from_str(alloc, text)?,
        })
    }

    /// The word as text.
    pub fn as_str(&self) -> &str
        ensures { result.now ≡ self.now }
    {
        self.text.as_str()
    }
}

/// Some words of a command; contracts see the bytes of each.
#[derive(Debug, Drop)]
pub struct Words {
    list: Vec<Word>,
}

impl Model for Words {
    ghost use Rattle.std.specs.Prelude.{ℕ, List};

    ghost Value = { List (List ℕ) };

    ghost view = { λ w. w.list.items };
}

impl Words {
    ghost use Rattle.std.specs.Prelude.{◌≡◌, map, string_bytes, IfOk};

    /// The words with these texts.
    pub fn from_texts(alloc: Global, texts: &[String]) -> Result<Words, AllocError>
        ensures { IfOk result (λ words. words ≡ map string_bytes texts.now) }
    {
        let mut list = Vec::new(alloc);
        for text in texts {
            list.push(Word::from_text(alloc, text.as_str())?)?;
        }
        Ok(Words { list })
    }

    /// The words, in order.
    pub fn as_slice(&self) -> &[Word]
        ensures { result.now ≡ self.now }
    {
        self.list.as_slice()
    }
}
