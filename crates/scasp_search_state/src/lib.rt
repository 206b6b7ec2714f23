//! A state of the search that is changed in place, with states that wait behind it.
#![tactic(auto)]

mod choice;
mod situation;

pub use choice::{Begun, Choice};
pub use situation::Situation;
