//! What is due on a line of a certificate, and the list of constraints that holds there.

mod contexts;
mod determining;
mod due;
mod pending;
mod raised;
mod rooms;
mod simple;
mod sums;

pub use contexts::{change_context, constraint_count, context};
pub use determining::determined;
pub use due::{Due, Dues, head_dues, leaf_dues, query_dues, rule_dues};
pub use raised::{raised_from, raised_row};
pub use rooms::top;
pub use simple::simple_differ;
