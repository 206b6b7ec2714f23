//! The checker of certificates: whether one is accepted, and what it is worth.
#![tactic(auto)]

mod pairs;
mod partners;
mod verdict;
mod walk;

pub use partners::{Partners, differ_by_names, items_in, partners_of};
pub use verdict::{CheckErr, Reason, Refusal, Verdict, accept, check};
