//! Why a file has no commands.
ghost use Rattle.std.specs.Prelude.{◌≡◌};
ghost use Rattle.scasp_serve_words.specs.declared.error.CommandsErr.TheVariants as errors;

use std::alloc::AllocFailed;

/// Why a file has no commands.
#[derive(Clone, Copy, Debug, PartialEq, Eq)]
pub enum CommandsErr {
    /// The line that begins at this byte is no command, or lacks its end.
    Line { at: u64 },
    /// Want of memory.
    Memory,
}

impl<T: Drop> From<AllocFailed<T>> for CommandsErr {
    ghost from_gives = { λ _ error. error ≡ errors.Memory };

    fn from(_error: AllocFailed<T>) -> CommandsErr {
        CommandsErr::Memory
    }
}
