//! Answer files, read from their bytes.

mod bytes;
mod error;
mod names;
mod read;
mod versioned;

pub use crate::states::{Block, Entries, Entry};
pub use error::AnswerErr;
pub use read::{BYTE_LIMIT, read_answers};
