//! When two rows in normal form are the same. It has no code, but a definition, and a law as a public function.
#![tactic(auto)]

pub mod laws;
