//! Commands.
ghost use Rattle.std.specs.Prelude.{◌≡◌};
ghost use Rattle.scasp_serve_words.specs.Commands as spec;

use crate::words::{behind_word, first_word, number_in};

/// The greatest number that is written with ten digits.
const MOST_NUMBER: u64 = 9_999_999_999;

/// The largest budget.
const MOST_BUDGET: u64 = 1_000_000_000;

/// What a line asks for.
#[derive(Clone, Copy, Debug, PartialEq, Eq)]
pub enum Command {
    /// A session for the query of this number, within so many calls.
    Open { query: u64, budget: u64 },
    /// What comes within so many further calls of the session of this number.
    Next { id: u64, calls: u64 },
    /// The end of the session of this number.
    Close { id: u64 },
}

/// The command with these numbers behind `open`.
fn open_in(numbers: &[u8]) -> Option<Command>
    ensures { result ≡ spec.open_in numbers.now }
{
    Some(Command::Open {
        query: number_in(1, MOST_NUMBER, first_word(numbers))?,
        budget: number_in(1, MOST_BUDGET, behind_word(numbers))?,
    })
}

/// The command with these numbers behind `next`.
fn next_in(numbers: &[u8]) -> Option<Command>
    ensures { result ≡ spec.next_in numbers.now }
{
    Some(Command::Next {
        id: number_in(1, MOST_NUMBER, first_word(numbers))?,
        calls: number_in(0, MOST_NUMBER, behind_word(numbers))?,
    })
}

/// The command with this number behind `close`.
fn close_in(number: &[u8]) -> Option<Command>
    ensures { result ≡ spec.close_in number.now }
{
    Some(Command::Close {
        id: number_in(1, MOST_NUMBER, number)?,
    })
}

/// The command that the line is.
pub(crate) fn command_in(line: &[u8]) -> Option<Command>
    ensures { result ≡ spec.command_in line.now }
{
    let word = first_word(line);
    let numbers = behind_word(line);
    if word == b"open".as_slice() {
        return open_in(numbers);
    }
    if word == b"next".as_slice() {
        return next_in(numbers);
    }
    if word == b"close".as_slice() {
        return close_in(numbers);
    }
    None
}
