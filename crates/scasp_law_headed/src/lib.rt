//! The trees of a finished search over a program whose bodies have no variable of their own.
#![tactic(auto)]

pub mod laws;
