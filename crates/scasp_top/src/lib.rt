//! The top call: from the words of a command and the bytes of files to the text that is printed.
#![tactic(auto)]

mod check_command;
mod extend_command;
mod laws;
mod recheck_command;
mod run_command;
mod top;
mod trial_command;

pub use laws::{checks_agree, checks_mean};
pub use scasp_command_inputs::Status;
pub use top::{scasp, scasp_sure};
