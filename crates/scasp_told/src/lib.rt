//! One list whose changes can be undone, cut into pieces.
#![tactic(auto)]

mod cuts;
mod told;

pub use told::Told;
