//! The certificate of a state of the written search with nothing left to do.

mod building;
mod certificate;
mod given;
mod numbering;
mod renaming;
mod universals;

pub use certificate::{About, certificate_at};
