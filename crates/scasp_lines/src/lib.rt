//! The lines of a certificate, each with what stands around it.
#![tactic(auto)]

pub mod laws;
