//! A law of answer files: a file with copies is read as the file of version 1 that it stands for.
#![tactic(auto)]

pub mod laws;
