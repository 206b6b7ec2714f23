//! Many suspended searches: a caller keeps them by their numbers and asks each for as many calls as it likes.
#![tactic(auto)]

mod errors;
pub mod laws;
mod session;
mod sessions;

pub use errors::{NoSession, OpenErr};
pub use session::Session;
pub use sessions::{MOST_OPEN, Sessions};
