//! The projection of constraints: chosen variables are kept, the others are eliminated.
#![tactic(auto)]

mod choices;
mod dropped;
mod elimination;
pub mod laws;
mod part_rows;
mod projecting;

pub use projecting::{Projected, project};
