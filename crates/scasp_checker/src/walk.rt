//! All lines of a certificate, one after the other: the first thing that is wrong at them.

mod counts;
mod lines;
mod rules;
mod tabled;
mod walk;

pub use tabled::{Tabled, with_table};
pub use walk::accept_lines;
