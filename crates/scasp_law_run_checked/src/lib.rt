//! What a run prints is read back by a check, and found right.
#![tactic(auto)]

pub mod laws;
