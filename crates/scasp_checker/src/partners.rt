//! Pairs of literals: found by predicate and sign, and told apart by names.

mod named;
mod partners;

pub use named::differ_by_names;
pub use partners::{Partners, items_in, partners_of};
