//! Constraints that are assumed in a state of the search that is changed in place, and terms that are to be equal or apart.
#![tactic(auto)]

mod alternatives;
mod assumptions;
mod bindings;
mod differences;
mod equality;
mod pairs;
mod parts;
mod replacements;
mod shapes;
mod splits;
mod variables;

pub use assumptions::{assume, assume_all, is_general};
pub use bindings::bind;
pub use differences::{differ_terms, same_shape, same_value};
pub use equality::equate_terms;
pub use parts::differ_value;
pub use splits::split;
