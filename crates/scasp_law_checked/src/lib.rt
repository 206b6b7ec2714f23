//! What is printed is found right as it is checked.
#![tactic(auto)]

pub mod laws;
