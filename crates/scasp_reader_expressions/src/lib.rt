//! Linear expressions of a program's text, worked out as they are read, and the rows between two of them.
#![tactic(auto)]

mod expressions;
mod sums;
mod values;

pub use expressions::expression;
pub use sums::{Operation, Sum};
pub use values::{Value, row_at, united};
