//! What the answers of the written search have in common with the problem that it is about. It has no code, but definitions,
//! and laws as public functions.
#![tactic(auto)]

pub mod laws;
