//! The lines of an answer file, of all forms, read from their bytes.
#![tactic(auto)]

mod forms;
mod rows;

pub use forms::{End, Line, fits, line_in};
