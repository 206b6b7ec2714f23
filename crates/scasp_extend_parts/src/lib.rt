//! The parts of an extension: whether values meet what is given, what the lines of a certificate say over a domain, and what that leaves
//! of the instances of the program.
#![tactic(auto)]

mod errors;
mod left;
mod literals;
mod said;
mod told;
mod values;

pub use errors::ExtendErr;
pub use left::left_over;
pub use said::said_over;
pub use told::Told;
pub use values::accept_values;
