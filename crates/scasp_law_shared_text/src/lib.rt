//! A law of answer files: what is printed of blocks with copies is read back.
#![tactic(auto)]

pub mod laws;
