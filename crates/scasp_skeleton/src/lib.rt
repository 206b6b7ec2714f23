//! Certificates without what shows them, and copies of what stands on a line with another hint.
#![tactic(auto)]

mod copies;
mod skeletons;

pub use copies::{put_branch, put_tree};
pub use skeletons::skeleton;
