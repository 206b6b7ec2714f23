//! A search whose states are changed in place: the states that are still to be gone through are the present one and those that
//! wait behind it.
#![tactic(auto)]

mod looks;
mod suspended;

pub use suspended::Suspended;
