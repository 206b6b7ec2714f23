//! The tokens of a line of an answer file, and the terms that are read from them.
#![tactic(auto)]

mod terms;
mod tokens;

pub use terms::{atom, list, literal, name, term, unescaped};
pub use tokens::{Cursor, Stop, Token, bounded_integer, bounded_place, is_count, is_place};
