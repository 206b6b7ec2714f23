//! The answers that a search gives can be written so that they are read back.
#![tactic(auto)]

pub mod laws;
