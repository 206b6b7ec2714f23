//! Searches that are suspended: walks through the states of a machine, told in slices of calls.
#![tactic(auto)]

mod ahead;
mod events;
mod frontier;
pub mod laws;
mod walk;

pub use events::Advance;
pub use frontier::{Frontier, Look};
pub use walk::{Walk, advance_all, advance_by};
