//! The variables that rows fix to a number, and lists of constraints without them.
#![tactic(auto)]

pub mod laws;
mod telling;
mod values;

pub use telling::{Told, tell};
