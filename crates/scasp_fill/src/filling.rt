//! Filling a tree: the hints and clash lines with which it is accepted, if there are any.

mod clashes;
mod filling;
mod finding;
mod hints;
pub mod laws;
mod pieces;
mod rebuilding;

pub use filling::{Filled, fill};
