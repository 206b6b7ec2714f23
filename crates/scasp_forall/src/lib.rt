//! Open covers of a state, with their regions and remainders, whose changes can be undone.
#![tactic(auto)]

mod chains;
mod listing;
mod regions;
mod scope;
mod scopes;

pub use chains::unbound_from;
pub use scope::{Opening, Rest};
pub use scopes::Scopes;
