//! Certificates as text: the block of lines from `answer` to `end`.
#![tactic(auto)]

mod block;
mod constraints;
mod hints;
mod indents;
mod lines;
mod pieces;
mod stack;
mod terms;
mod trees;

pub use block::print_cert;
pub use constraints::put_con;
pub use terms::put_term;
