//! The instances of what opened on the way to a line, over a domain.
#![tactic(auto)]

pub mod laws;
mod tests;
mod values;
mod ways;

pub use values::{Way, ranging};
pub use ways::ways_of;
