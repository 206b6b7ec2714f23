//! Which certificates an edit of a program touches.
#![tactic(auto)]

mod comparison;
mod edit;
mod equality;
mod moved;
mod named;
mod numbers;

pub use edit::Edit;
pub use equality::{same_clause, same_query};
pub use named::Named;
