//! Programs as text: one clause a line.
#![tactic(auto)]

mod abducibles;
mod clauses;
mod items;
mod pieces;
mod programs;
mod style;
mod terms;

pub use abducibles::put_abducible;
pub use clauses::{put_body, put_clause, put_query};
pub use items::put_items;
pub use programs::{print_program, written_count};
pub use style::{Shown, VariableText};
