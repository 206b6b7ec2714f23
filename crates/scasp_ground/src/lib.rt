//! The instances of a program over a domain.
#![tactic(auto)]

mod count;
mod error;
mod grounding;
mod instances;
mod tested;
mod ways;

pub use count::{INSTANCE_LIMIT, count_instances, power};
pub use error::GroundErr;
pub use grounding::ground;
pub use instances::instance_of;
pub use tested::{body_tests, passes};
pub use ways::choice;
