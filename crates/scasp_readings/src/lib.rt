//! Literals, constraints and lines as bindings that are found by variable read them.
#![tactic(auto)]

mod constraints;
mod lines;
mod literals;
mod passing;
mod rows;

pub use constraints::{con_vars, read_con, read_simple, read_term};
pub use lines::{lines_overflow, read_line};
pub use literals::{read_atom, read_lit};
pub use passing::{ConTest, Has, TestsNumber, has_number_test, is_among, stands_in};
pub use rows::is_unreplaced;
