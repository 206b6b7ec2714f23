//! Why a search comes to an event.
#![tactic(auto)]

pub mod laws;
