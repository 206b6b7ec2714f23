//! Lists of constraints, told in the fewest words.
#![tactic(auto)]

mod alternatives;
mod evident;
mod following;
pub mod laws;
mod ordering;
mod shortening;

pub use alternatives::shortest;
pub use following::{follows, has_row_of};
