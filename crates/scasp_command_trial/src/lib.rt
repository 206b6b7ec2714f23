//! The trial of a program: the first answer to its first query, checked and summed up in one line.
#![tactic(auto)]

mod first;
mod line;

pub use first::{Trial, try_first};
pub use line::trial_line;
