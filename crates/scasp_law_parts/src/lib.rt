//! Parts of a list of constraints that share no variable with the rest, and what the list's valuations have to do with
//! theirs. It has no code, but definitions, and laws as public functions.
#![tactic(auto)]

pub mod laws;
