//! The search as it is written down: rules in order, depth first, over whole copied states.
#![tactic(auto)]

mod steps;
pub mod written;

pub use steps::{States, successors};
pub use written::{Event, Goal, Written, answer, goal_of, start_of};
