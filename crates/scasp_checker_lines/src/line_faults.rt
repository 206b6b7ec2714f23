//! What is wrong at a line of a certificate: variables, splits, cases, hints, and the literals above.

mod ancestors;
mod cases;
mod common;
mod hints;
mod known;
mod splits;
mod within;

pub use ancestors::{entry_at, is_entry_of, is_negated_before};
pub use cases::{accept_head, accept_leaf, accept_split};
pub use common::Common;
pub use hints::accept_hint;
pub use known::{knows_atom, knows_con, may_split_here, scope_of, universal_of};
pub use splits::may_split;
pub use within::{InScope, Universal};
