//! Hints: what shows that a list of constraints has no valuation.
#![tactic(auto)]

mod asked;
mod fault;
mod finding;
pub mod laws;
mod showing;
mod sides;

pub use asked::{Asked, RowsView};
pub use fault::{HintErr, HintFault};
pub use finding::{find, is_satisfiable};
pub use showing::unsat;
pub use sides::Sides;
