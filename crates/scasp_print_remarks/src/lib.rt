//! The remarks behind the block of an answer, for a person to read.
#![tactic(auto)]

pub mod laws;
mod remarks;
mod values;
mod variables;
mod wheres;

pub use remarks::put_remarks;
