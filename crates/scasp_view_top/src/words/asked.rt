//! What the words ask for.
ghost use Rattle.std.specs.Prelude.{◌≡◌, Some, None, IfOk, IsErrOf, map, string_bytes};
ghost use Rattle.scasp_view_top.specs.Words.Asked.{answers_of, asked_of, is_file, program_of};

use crate::words::options::{Options, options_in};
use crate::words::place::{Place, at_words};
use scasp_command_words::{Word, WordErr};
use std::alloc::Global;

/// What the words ask to be shown.
#[derive(Debug, Drop)]
pub enum Asked {
    /// The line and the column of a byte of a file.
    Place(Place),
    /// A program, with the numbers of its clauses and queries.
    Program {
        file: Word,
    },
    /// The blocks of an answer file, under a program.
    Answers {
        program: Word,
        answers: Word,
        options: Options,
    },
}

/// Whether the word may name a file: one that begins with `--` does not.
fn is_file(word: &str) -> bool
    ensures { result ≡ is_file word.now }
{
    !word.as_bytes().starts_with(b"--")
}

/// What a program and a second file ask for, with the words behind them.
fn answers_words(
    alloc: Global,
    program: &str,
    answers: &str,
    words: &[String],
) -> Result<Asked, WordErr>
    ensures ok { IfOk result (λ asked. answers_of program.now answers.now (map string_bytes words.now) ≡ Some asked) }
    ensures usage { IsErrOf result WordErr.Usage → answers_of program.now answers.now (map string_bytes words.now) ≡ None }
{
    if !is_file(answers) {
        return Err(WordErr::Usage);
    }
    let Some(options) = options_in(words) else {
        return Err(WordErr::Usage);
    };
    Ok(Asked::Answers {
        program: Word::from_text(alloc, program)?,
        answers: Word::from_text(alloc, answers)?,
        options,
    })
}

/// What a first word that is none of ours asks for, with the words behind it.
fn program_words(alloc: Global, file: &str, words: &[String]) -> Result<Asked, WordErr>
    ensures ok { IfOk result (λ asked. program_of file.now (map string_bytes words.now) ≡ Some asked) }
    ensures usage { IsErrOf result WordErr.Usage → program_of file.now (map string_bytes words.now) ≡ None }
{
    if !is_file(file) {
        return Err(WordErr::Usage);
    }
    match words {
        [] => Ok(Asked::Program {
            file: Word::from_text(alloc, file)?,
        }),
        [answers, options @ ..] => answers_words(alloc, file, answers.as_str(), options),
    }
}

/// What the words ask for.
///
/// # Errors
///
/// `Usage` exactly where they ask for nothing; `Memory` for want of memory.
pub fn parse_words(alloc: Global, words: &Vec<String>) -> Result<Asked, WordErr>
    ensures ok { IfOk result (λ asked. asked_of (map string_bytes words.now.items) ≡ Some asked) }
    ensures usage { IsErrOf result WordErr.Usage → asked_of (map string_bytes words.now.items) ≡ None }
{
    match words.as_slice() {
        [] => Err(WordErr::Usage),
        [word, behind @ ..] if word.as_str() == "at" => Ok(Asked::Place(at_words(alloc, behind)?)),
        [file, behind @ ..] => program_words(alloc, file.as_str(), behind),
    }
}
