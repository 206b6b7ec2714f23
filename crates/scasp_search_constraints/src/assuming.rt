//! Constraints that are assumed, and splits of cases.

mod assumptions;
mod contexts;
mod covers;
mod numbers;
mod partings;
mod step;

pub use assumptions::{is_general, reads_as_true};
pub use contexts::{among, is_constrained};
pub use covers::split_at;
pub use numbers::is_number_by;
pub use step::{SearchErr, passes};
