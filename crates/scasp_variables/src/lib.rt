//! The variables of a state, whose changes can be undone.
#![tactic(auto)]

mod variables;

pub use variables::Variables;
