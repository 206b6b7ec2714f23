//! Finishing a tree of the written search: with the hints and clash lines with which it is right, or passed over.

mod finishing;

pub use finishing::{Finished, finish};
