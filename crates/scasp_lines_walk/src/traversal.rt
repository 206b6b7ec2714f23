//! One walk over the lines of a certificate, with a stack of its own: each line with its number, the number of the next
//! universal variable, its place, and what stands there.

mod cursor;
mod entering;
mod parts;
mod waiting;

pub use cursor::Lines;
pub use parts::{Line, Part};
