//! Lists whose changes can be undone.
#![tactic(auto)]

mod change;
mod trailed;

pub use trailed::Trailed;
