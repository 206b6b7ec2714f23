//! The text of the command `extend`: a whole stable model above each answer of a file.
#![tactic(auto)]

mod command;
mod ends;
mod extending;
mod laws;
mod lines;
mod reports;

pub use command::extend_files;
pub use ends::Extended;
pub use extending::extend_blocks;
pub use laws::{see_outcome, see_outcomes};
