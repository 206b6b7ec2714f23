//! Certificates: an answer to a query, with the tree that says why it holds.
#![tactic(auto)]

mod certificate;
mod count;
mod flatness;
mod lists;
mod tree;
mod walk;

pub use certificate::{Cert, Check, Checks, Clash, Clashes};
pub use count::lines;
pub use flatness::flat;
pub use tree::{Case, Cover, Covers, Node, Nodes};
pub use walk::{Line, Walk};
