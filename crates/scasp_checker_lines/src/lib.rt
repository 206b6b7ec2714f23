//! What is wrong at a line of a certificate by itself, and at a line of a literal that was shown before.
#![tactic(auto)]

mod line_faults;
mod node_faults;
mod table_faults;

pub use line_faults::{Common, accept_head, accept_hint, accept_leaf, accept_split};
pub use node_faults::{
    accept_literal, accept_loop, accept_positive, accept_test, accept_void, asks_negated, common_of,
};
pub use table_faults::accept_seen;
