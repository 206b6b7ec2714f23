//! The given constraints of a state, whose changes can be undone.
#![tactic(auto)]

mod given;

pub use given::Given;
