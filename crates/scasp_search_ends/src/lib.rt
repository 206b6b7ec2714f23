//! The end of a branch of the search: the certificate of a state with nothing left to do, and its sample.
#![tactic(auto)]

mod ends;
mod finished;

pub use ends::{answer_at, close_overflows};
pub use finished::About;
