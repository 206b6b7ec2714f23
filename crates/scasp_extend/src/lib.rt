//! A whole stable model above an answer, over a domain that is listed.
#![tactic(auto)]

mod extending;
mod models;
mod worth;

pub use extending::extend;
pub use scasp_extend_parts::ExtendErr;
