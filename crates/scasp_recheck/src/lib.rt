//! Rechecks after edits: certificates that were checked under one program are checked under the next.
#![tactic(auto)]

mod certs;
mod checked;
mod recheck;
mod step;
mod tally;

pub use certs::Certs;
pub use checked::Checked;
pub use recheck::Recheck;
