//! The suspended search: it answers in slices of calls, and waits in between.
#![tactic(auto)]

mod events;
mod search;
mod slices;

pub use events::Advance;
pub use search::Search;
pub use slices::{advance_all, next_event};
