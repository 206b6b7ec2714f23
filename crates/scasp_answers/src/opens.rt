//! The lines of an answer file that are open, and how they are closed.

mod closing;
mod opens;
mod placing;
mod top;

pub use closing::close_to;
pub use opens::Opens;
pub use placing::Placing;
