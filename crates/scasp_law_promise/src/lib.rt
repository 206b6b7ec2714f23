//! Why accepted certificates keep their promise.
#![tactic(auto)]

pub mod laws;
mod rows;

pub use rows::see_rows;
