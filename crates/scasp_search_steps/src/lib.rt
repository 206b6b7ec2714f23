//! Steps of the search, each written once over a state that is changed in place.
#![tactic(auto)]

mod calls;
mod cases;
mod choices;
mod clauses;
mod entering;
mod expected;
mod foresight;
mod leaves;
mod loops;
mod steps;
mod tests;

pub use calls::call;
pub use cases::{begin_cases, check_clause, close_case};
pub use choices::{resume, resume_ahead};
pub use entering::{by_no_rule, by_rule, covered, entered, try_rules};
pub use expected::Expected;
pub use foresight::Foresees;
pub use leaves::try_leaves;
pub use loops::looped;
pub use steps::step;
pub use tests::show_test;
