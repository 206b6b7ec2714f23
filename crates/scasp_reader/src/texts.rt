//! The whole text of a program, as it is written: its clauses and queries and the predicates that may be
//! assumed, or the first fault with its place.

mod abducibles;
mod clauses;
mod texts;

pub use clauses::{Part, clause};
pub use texts::{BYTE_LIMIT, CLAUSE_LIMIT, Parts, Reading, read_text};
