//! The written search over the whole language: rules in order, depth first, over whole copied states.

mod free;
mod goal;
pub mod laws;
mod stack;
mod start;
mod walk;
mod written;

pub use free::answer;
pub use goal::Goal;
pub use start::start_of;
pub use written::{Event, Written, goal_of};
