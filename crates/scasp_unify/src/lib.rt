//! Unification, and what the terms and rows of a list of constraints say.
#![tactic(auto)]

mod bindings;
mod failures;
pub mod laws;
mod parts;
mod resolver;
mod rows;
mod solving;

pub use bindings::{Binding, resolve, resolve_terms};
pub use failures::{are_among_numbers, fails_by_terms};
pub use parts::Part;
pub use resolver::{Resolver, resolver_of};
pub use rows::resolved_row;
pub use solving::resolved_sides;
