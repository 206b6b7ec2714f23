//! Hints without the steps that nothing uses.
#![tactic(auto)]

mod finding;
pub mod laws;
mod pruning;

pub use finding::find_pruned;
