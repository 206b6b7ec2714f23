//! Domain files read from their bytes: a ground term a line, or the first fault with its place.
#![tactic(auto)]

mod fault;
pub mod laws;
mod line;
mod names;
mod read;

pub use fault::{DomainErr, DomainFault, DomainKind};
pub use read::{BYTE_LIMIT, read_domain};
