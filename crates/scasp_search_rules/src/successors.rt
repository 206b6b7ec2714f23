//! What comes after each state of the written search: one room for each rule. It has no code, but definitions, and laws as public
//! functions.

pub mod laws;
