//! The clauses that an answer has to be checked against: denials and odd rules.
#![tactic(auto)]

mod items;
pub mod laws;
mod listing;

pub use items::{CheckItem, CheckItems};
pub use listing::checks;
