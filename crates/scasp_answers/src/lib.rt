//! Answer files read from their bytes: blocks of certificates, or the first fault with its line.
#![tactic(auto)]

pub mod blocks;
mod files;
mod opens;
mod parts;
mod states;

pub use blocks::{AnswerFault, AnswerKind};
pub use files::{AnswerErr, BYTE_LIMIT, Block, Entries, Entry, read_answers};
