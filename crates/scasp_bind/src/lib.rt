//! Bindings of variables with a trail.
#![tactic(auto)]

mod binding;
mod bindings;
mod depths;
mod occurrences;
mod resolving;
mod trailed;
mod variable;
mod walks;

pub use bindings::Bindings;
pub use variable::{BindMark, Change, Sort, Variable};
