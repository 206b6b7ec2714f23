//! Tables of ground terms and of atoms, which are found by their value.
#![tactic(auto)]

mod atom_table;
mod domain;
mod key_table;
mod keys;
mod pushed;

pub use atom_table::AtomTable;
pub use domain::Domain;
pub use pushed::Pushed;
