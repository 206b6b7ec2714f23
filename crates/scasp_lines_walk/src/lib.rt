//! The lines of a certificate, one after the other with what stands around each, and a table of them.
#![tactic(auto)]

mod shown;
mod traversal;

pub use shown::{Saying, Table, shown_at, table_of};
pub use traversal::{Line, Lines, Part};
