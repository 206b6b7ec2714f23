//! Why what a session tells is about the program that is served.
#![tactic(auto)]

pub mod laws;
