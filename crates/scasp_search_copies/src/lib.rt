//! A state of the search that is changed in place, with copies of the states that wait.
#![tactic(auto)]

mod ahead;
mod asking;
mod closing;
mod copied;
mod foresight;
mod literals;
mod tasks;

pub use copied::Copied;
