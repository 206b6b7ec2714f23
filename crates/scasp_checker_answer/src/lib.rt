//! What is wrong with a certificate, looked for part by part.
#![tactic(auto)]

mod answer;
mod any;
mod clashes;
mod equality;
mod judged;
pub mod laws;
mod map;
mod names;
mod rules;
mod sample;
mod scope;

pub use answer::accept_answer;
pub use any::{any_of_terms, has_any, has_either};
pub use clashes::clash_of;
pub use equality::same_con;
pub use judged::{CheckErr, want};
pub use map::accept_map;
pub use names::clash_among;
pub use rules::{has_count_of, is_instance};
pub use sample::{accept_sample, bounded_sum};
pub use scope::{Below, Scope, are_below, are_cons_known, are_known, is_con_known, is_known};
