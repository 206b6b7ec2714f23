//! Lines and answer files by tables of names that have the same first names.
#![tactic(auto)]

pub mod laws;
