//! The checker of certificates: whether one is accepted, and what it is worth.

mod acceptance;
mod verdict;

pub use acceptance::accept;
pub use scasp_checker_answer::CheckErr;
pub use scasp_checker_rules::{Reason, Refusal};
pub use verdict::{Verdict, check};
