//! A program's text read as a program: well formed, with the generated denials behind its clauses.
#![tactic(auto)]

mod bodies;
pub mod programs;
mod texts;

pub use bodies::{DEPTH_LIMIT, ITEM_LIMIT};
pub use programs::{denial_of, read_program};
pub use texts::{BYTE_LIMIT, CLAUSE_LIMIT, Part, Parts, Reading, read_text};
