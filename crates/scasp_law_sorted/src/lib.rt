//! The lists that a search asks are sorted, as long as no variable is universal.
#![tactic(auto)]

pub mod laws;
