//! The files of a command, and how a command ends: a program or answers that are read, or the line that tells why they are not.
#![tactic(auto)]

mod domain_file;
mod halt;
mod inputs;
mod refusals;
mod status;

pub use domain_file::domain_in_file;
pub use halt::{Halt, line, print, tell};
pub use inputs::{
    answers_in_file, next_program_in_file, program_in_file, read_text, written_in_file,
};
pub use refusals::{Input, refusal};
pub use status::Status;
