//! Phrases of a program's text, read from tokens: the smallest steps of a reader, names, variables, numbers, terms.
#![tactic(auto)]

mod constants;
mod fault;
mod reader;
mod terms;

pub use fault::{Count, Fault, Kind, Stop};
pub use reader::{Reader, VARIABLE_LIMIT};
pub use terms::{ARITY_LIMIT, arguments_of};
