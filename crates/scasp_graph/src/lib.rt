//! How predicates depend on one another: odd loops, levels and signs.
#![tactic(auto)]

mod analysis;
mod components;
mod graph;
pub mod laws;
mod levels;
mod map;
mod numbering;
mod occurrences;
mod order;

pub use analysis::{Analysis, analyse};
pub use map::{MapFault, has_number, map_holds};
pub use numbering::Numbering;
pub use occurrences::{number, predicates};
