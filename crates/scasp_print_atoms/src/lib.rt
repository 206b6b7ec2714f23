//! Atoms a line each, in byte order of their texts.
#![tactic(auto)]

mod atom;
pub mod laws;
mod lines;

pub use atom::put_atom;
pub use lines::{count_atoms, put_atom_lines};
