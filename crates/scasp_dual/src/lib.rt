//! The rules of each predicate as flat bodies, of which duals are made.
#![tactic(auto)]

pub mod laws;
mod planning;
mod plans;

pub use planning::plan;
pub use plans::{Plan, Plans, RulePlan, RulePlans};
