//! The call of `scasp_view`: from its words and the bytes of files to what is shown.
#![tactic(auto)]

mod answers;
mod blocks;
mod clauses;
pub mod laws;
mod place;
mod program;
mod top;
mod trees;
mod words;

pub use top::view;
