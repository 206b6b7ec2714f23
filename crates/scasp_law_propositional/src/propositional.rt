//! Propositional programs, of which no finished tree of the written search is passed over. It has no code, but definitions,
//! and laws as public functions.

pub mod laws;
