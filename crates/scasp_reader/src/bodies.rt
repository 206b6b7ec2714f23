//! Bodies of a program's clauses, read from tokens: atoms, the items of all forms, and their limit.

mod ahead;
mod atoms;
mod bodies;
mod comparisons;
mod items;

pub use atoms::{DEPTH_LIMIT, atom};
pub use bodies::{ITEM_LIMIT, body};
pub use comparisons::Relation;
pub use items::item;
