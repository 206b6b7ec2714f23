//! Why the levelled model of what an accepted certificate leaves of its program is a stable model of the program above what the
//! certificate says.
#![tactic(auto)]

pub mod laws;
