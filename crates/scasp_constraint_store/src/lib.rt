//! A list of constraints with its variables: questions about it, and changes that can be undone.
#![tactic(auto)]

mod asking;
mod binding;
mod change;
mod knowing;
pub mod laws;
mod lowering;
mod retiring;
mod sampling;
mod store;

pub use asking::{Assumed, StoreErr};
pub use store::{Store, StoreMark};
