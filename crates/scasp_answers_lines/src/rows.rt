//! Linear rows and steps between them, read from the tokens of a line.

mod hints;
mod rows;
mod sums;

pub use hints::hint;
pub use rows::row_con;
