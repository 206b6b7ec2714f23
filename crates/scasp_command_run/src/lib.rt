//! The run of a program: the answers to all its queries, checked and printed one after the other.
#![tactic(auto)]

mod ends;
mod events;
pub mod laws;
mod printing;
mod queries;
mod requests;
mod runs;

pub use ends::{QueryEnd, RunEnd};
pub use events::SLICE;
pub use requests::Request;
pub use runs::run;
