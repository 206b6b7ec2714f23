//! Why words are no command.
use std::alloc::AllocError;
use thiserror::Error;

/// Why words are no command.
#[derive(Clone, Copy, Debug, PartialEq, Eq, Error)]
pub enum WordErr {
    /// They are not in the grammar.
    #[error("no command")]
    Usage,
    /// Want of memory.
    #[error("out of memory")]
    Memory,
}

impl From<AllocError> for WordErr {
    ghost use Rattle.std.specs.Prelude.{◌≡◌};
    ghost use Rattle.scasp_command_words.specs.declared.error.WordErr.TheVariants as errors;

    ghost from_gives = { λ _ e. e ≡ errors.Memory };

    fn from(_error: AllocError) -> WordErr {
        WordErr::Memory
    }
}
