//! Runs of propositional programs, which pass over no tree of the search. It has no code, but definitions, and laws as public
//! functions.

pub mod laws;
