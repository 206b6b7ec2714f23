//! What is asked of a run.
use scasp_command_words::Format;

/// What is asked of a run.
#[derive(Clone, Copy)]
pub struct Request {
    /// How many calls the search for answers to one query may make.
    pub budget: u64,
    /// How many answers to each query are asked for; all where no number is given.
    pub answers: Option<u64>,
    /// How the answers are written.
    pub format: Format,
}
