//! Why what is promised of an accepted certificate is never empty.
#![tactic(auto)]

pub mod laws;
