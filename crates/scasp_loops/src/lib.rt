//! Literals that were gone into, whose changes can be undone.
#![tactic(auto)]

mod asking;
mod called;
mod ending;
mod entry;
mod hints;
mod innermost;
mod lists;
mod loops;
mod opposing;

pub use entry::{Entered, Entry, Marks};
pub use loops::Loops;
