//! Answer files, as they are read.

mod fault;
pub mod laws;
mod version;

pub use fault::{AnswerFault, AnswerKind};
pub use version::Version;
