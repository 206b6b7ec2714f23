//! Constraints that are assumed in states of the search: what becomes of the state, the split of a case, and where a variable stands.
#![tactic(auto)]

mod assuming;
mod equate;

pub use assuming::{
    SearchErr, among, is_constrained, is_general, is_number_by, passes, reads_as_true, split_at,
};
pub use equate::equations;
