//! A state of the search that is one of containers whose changes can be undone.
#![tactic(auto)]

mod closing;
mod copying;
mod covers;
mod foresight;
mod partings;
mod parts;
mod questions;
mod splits;
mod trail;

pub use trail::Trail;
