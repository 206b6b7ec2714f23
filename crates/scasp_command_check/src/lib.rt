//! The text of the command `check`: what each block of an answer file is worth.
#![tactic(auto)]

mod checking;
mod laws;
mod lines;
mod worth;

pub use checking::{Rechecked, recheck, see_entries};
pub use laws::{accepted_means, right_means};
pub use lines::{block_line, reason_words};
pub use worth::{Worth, find_worth, see_worth};
