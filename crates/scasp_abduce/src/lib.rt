//! Abducible predicates: each becomes a choice between two rules.
#![tactic(auto)]

mod new_names;
mod occurrences;
mod rules;
mod taken_names;
mod translation;

pub use translation::translate;
