//! Parts of the search by themselves, which can be undone to any earlier time.
#![tactic(auto)]

mod frame;
mod frames;
mod timed;

pub use frame::Frame;
pub use frames::{FrameMark, Frames};
