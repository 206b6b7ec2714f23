//! Values for the variables of constraints, and constraints whose variables have their numbers by place.
#![tactic(auto)]

mod differing;
mod plain;
mod renaming;
mod replacing;
mod sampling;

pub use renaming::{Placing, con_renamed, cons_renamed};
pub use replacing::{any_unreplaced, is_unreplaced};
pub use sampling::sample;
