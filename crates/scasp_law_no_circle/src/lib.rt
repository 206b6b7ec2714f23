//! No variable is bound to a term in which it stands, so each search comes to an event.
#![tactic(auto)]

pub mod laws;
