//! What a finished tree of the search comes to: hints and clash lines that are found, and whether the tree is right with them.
#![tactic(auto)]

pub mod filling;
mod finishing;

pub use filling::{Filled, fill};
pub use finishing::{Finished, finish};
