//! The lines of an answer file: what each says, and how it is read.

mod bounds;
mod cursor;
mod front;
mod numbers;
mod quotes;
mod same;
mod signs;
mod stop;
mod token;
mod words;

pub use bounds::{bounded_integer, bounded_place, is_count, is_place};
pub use cursor::Cursor;
pub use stop::Stop;
pub use token::Token;
