//! Bindings in order, found by variable, whose changes can be undone.
#![tactic(auto)]

mod bound;
mod listing;
mod places;
mod reading;
mod roots;
mod sameness;
mod variables;

pub use bound::Bound;
pub use roots::Root;
