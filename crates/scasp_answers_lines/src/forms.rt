//! The forms of lines of an answer file, read from their bytes.

mod bounds;
mod constraints;
mod edges;
mod first_words;
mod line;
mod lines;
mod nodes;
mod predicates;
mod reasons;

pub use bounds::fits;
pub use line::{End, Line};
pub use lines::line_in;
