//! Clauses that are written are read back: laws that join their texts with the grammar of a program.

pub mod laws;
