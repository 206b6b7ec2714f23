//! Lines of an answer file below which others stand, and the parts that they become.

mod among;
mod begin;
mod open_line;
mod part;
mod room;

pub use among::{case_among, nodes_among};
pub use open_line::{Open, Part};
