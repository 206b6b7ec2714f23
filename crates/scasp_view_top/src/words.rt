//! The words of `scasp_view`.
mod asked;
mod options;
mod place;

pub use asked::{Asked, parse_words};
pub use options::Options;
pub use place::Place;
