//! The words of a command.
#![tactic(auto)]

mod command;
mod error;
mod format;
mod number;
mod options;
mod word;

pub use command::{
    Command, DEFAULT_ANSWERS, DEFAULT_BUDGET, DEFAULT_FORMAT, FEWEST_PROGRAMS, MOST_NODES,
    MOST_PROGRAMS, parse_words,
};
pub use error::WordErr;
pub use format::Format;
pub use number::number_between;
pub use word::{Word, Words};
