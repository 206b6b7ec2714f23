//! Why a certificate that an edit does not touch needs no other check. It has no code, but a law as a public function.
#![tactic(auto)]

pub mod laws;
