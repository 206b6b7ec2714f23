//! The table of names by which answers are printed: in place of a free variable without a number stands a name that the program lacks.
#![tactic(auto)]

mod tables;

pub use tables::{Table, name_sample, table_of};
