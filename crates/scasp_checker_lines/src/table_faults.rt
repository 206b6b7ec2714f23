//! Tests of a certificate that need the table of its lines: literals shown before.

mod seen;

pub use seen::accept_seen;
