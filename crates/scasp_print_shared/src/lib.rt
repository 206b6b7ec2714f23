//! Certificates as text in which a subtree that repeats is written once.
#![tactic(auto)]

mod classes;
pub mod laws;
mod lines;
mod moves;
mod places;
mod print;
mod put;
mod search;
mod share;
mod split;
mod table;
mod walk;
mod words;

pub use print::print_shared;
