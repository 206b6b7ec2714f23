//! Bindings and given constraints whose changes can be undone, and the question whether they have a valuation with others.
#![tactic(auto)]

mod answering;
mod asked;
mod asking;
mod behind;
mod failing;
mod fixing;
mod keeping;
mod leaving;
mod opening;
mod rest;
mod store;

pub use store::Store;
