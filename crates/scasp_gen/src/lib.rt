//! Programs made from a number: a workload of any size.
#![tactic(auto)]

mod trial;

pub use trial::trial_program;
