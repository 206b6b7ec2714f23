//! A subtree of a block that is written once: what a line `copy N` stands for.
#![tactic(auto)]

mod line;
mod moving;
mod subtree;
mod told;
mod words;

pub use line::{BlockLine, Words};
pub use subtree::Subtree;
pub use told::Told;
pub use words::is_copy;
