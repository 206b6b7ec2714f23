//! The written search as a program that copies states.
#![tactic(auto)]

pub mod constraints;
pub mod forms;
pub mod pairs;
pub mod reading;
pub mod regions;
pub mod splits;
pub mod variables;
