//! What is wrong at a line of a node or a void case of a certificate.

mod constraints;
mod counted;
mod dues;
mod literals;
mod voids;

pub use constraints::accept_test;
pub use counted::common_of;
pub use dues::{asks_constraint, asks_literal, asks_negated, asks_positive, is_due, is_fact_due};
pub use literals::{accept_literal, accept_loop, accept_positive, accept_seen};
pub use voids::accept_void;
