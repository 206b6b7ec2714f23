//! The map of a certificate, with its entries found by predicate.
#![tactic(auto)]

mod entries;
mod keeping;
mod table;

pub use entries::{Entries, entries_of, level_in, plus_in};
pub use keeping::first_fault;
pub use table::MapTable;
