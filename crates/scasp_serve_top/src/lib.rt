//! The call of `scasp_serve`: from its words and the bytes of two files to the replies that are printed.
#![tactic(auto)]

mod inputs;
mod replies;
mod status;
mod top;

pub use status::ServeStatus;
pub use top::serve;
