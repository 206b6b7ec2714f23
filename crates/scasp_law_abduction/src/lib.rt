//! Why the translation of abducible predicates is right. It has no code, but a law as a public function.
#![tactic(auto)]

pub mod laws;
