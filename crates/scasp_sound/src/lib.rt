//! Why what an answer says is true: each stable model of what is left, joined with the answer's atoms,
//! is a stable model of the whole program.
#![tactic(auto)]

pub mod laws;
