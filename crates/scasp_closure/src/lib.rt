//! The least model of rules without `not`, in time linear in the rules, and stable models by it.
#![tactic(auto)]

mod closing;
pub mod laws;
mod reduct;
mod stable;

pub use closing::{atoms_in, closure, numbered_rule};
pub use stable::is_stable;
