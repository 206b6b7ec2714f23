//! Clauses in words.
use scasp_list::Sequence;
use std::marker::Model;

/// A text; contracts see its bytes.
#[derive(Drop)]
pub struct Text {
    bytes: Vec<u8>,
}

impl Model for Text {
    ghost use Rattle.std.specs.Prelude.{ℕ, List};

    ghost Value = { List ℕ };

    ghost view = { λ t. t.bytes.items };
}

impl Text {
    ghost use Rattle.std.specs.Prelude.{◌≡◌};

    /// The text of these bytes.
    pub fn new(bytes: Vec<u8>) -> Text
        ensures { result ≡ bytes.items }
    {
        Text { bytes }
    }

    /// Its bytes.
    pub fn as_bytes(&self) -> &[u8]
        ensures { result.now ≡ self.now }
    {
        self.bytes.as_slice()
    }
}

/// A clause in words.
#[derive(Drop)]
pub struct Wording {
    /// The whole clause, with the end of its line.
    pub whole: Text,
    /// Its body behind ` :- `; nothing of a fact.
    pub body: Text,
    /// The items of its flat body.
    pub items: Sequence<Text>,
}
