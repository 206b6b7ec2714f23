//! Why no answers are read.
ghost use Rattle.std.specs.Prelude.{◌≡◌};
ghost use Rattle.scasp_answers.specs.declared.files.error.AnswerErr.TheVariants as errors;

use crate::blocks::AnswerFault;
use scasp_list::Memory;
use std::alloc::AllocFailed;

/// Why no answers are read.
#[derive(Clone, Copy, Debug, PartialEq, Eq)]
pub enum AnswerErr {
    /// The bytes are no answer file: the first fault.
    At(AnswerFault),
    Memory,
}

impl From<Memory> for AnswerErr {
    ghost from_gives = { λ _ error. error ≡ errors.Memory };

    fn from(_error: Memory) -> AnswerErr {
        AnswerErr::Memory
    }
}

impl<T: Drop> From<AllocFailed<T>> for AnswerErr {
    ghost from_gives = { λ _ error. error ≡ errors.Memory };

    fn from(_error: AllocFailed<T>) -> AnswerErr {
        AnswerErr::Memory
    }
}
