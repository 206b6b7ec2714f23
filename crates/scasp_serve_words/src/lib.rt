//! The commands in a file of `scasp_serve`.
#![tactic(auto)]

mod command;
mod error;
mod reading;
mod words;

pub use command::Command;
pub use error::CommandsErr;
pub use reading::read_commands;
