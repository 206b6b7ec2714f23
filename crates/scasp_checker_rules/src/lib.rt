//! Which certificates are accepted, and what is wrong with the others.
#![tactic(auto)]

pub mod laws;
mod refusal;

pub use refusal::{Reason, Refusal};
