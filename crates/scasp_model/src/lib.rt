//! Ground programs and their stable models (Gelfond and Lifschitz 1988).
#![tactic(auto)]

mod atoms;
pub mod laws;
mod least_model;
mod program;
mod reduct;
mod stable;

pub use least_model::{is_without_not, least};
pub use program::{AtomList, DefiniteRule, DefiniteRules, Domain, GroundClause, GroundProgram};
pub use stable::is_stable;
