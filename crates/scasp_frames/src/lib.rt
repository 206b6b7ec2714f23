//! Work of the search whose changes can be undone.
#![tactic(auto)]

mod ahead;
mod bodies;
mod frame;
mod frames;
mod raising;
mod rest;
mod work;

pub use frames::Frames;
