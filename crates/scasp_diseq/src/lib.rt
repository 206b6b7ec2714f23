//! Excluded shapes and pending disequations, which can be undone.
#![tactic(auto)]

mod diseqs;
mod finding;
mod mentions;
mod noting;
mod posted;

pub use diseqs::{DiseqMark, Diseqs};
