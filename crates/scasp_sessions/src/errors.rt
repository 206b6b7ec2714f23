//! Why a call is refused.
use scasp_list::Memory;
use std::alloc::AllocFailed;

/// Why no session is opened.
#[derive(Clone, Copy, Debug, PartialEq, Eq)]
pub enum OpenErr {
    /// The program has no query of that number.
    NoQuery,
    /// As many sessions are open as may be.
    Full,
    /// Want of memory.
    Memory,
}

impl From<Memory> for OpenErr {
    ghost use Rattle.std.specs.Prelude.{◌≡◌};
    ghost use Rattle.scasp_sessions.specs.declared.errors.OpenErr.TheVariants as errors;

    ghost from_gives = { λ _ error. error ≡ errors.Memory };

    fn from(_error: Memory) -> OpenErr {
        OpenErr::Memory
    }
}

impl<T: Drop> From<AllocFailed<T>> for OpenErr {
    ghost use Rattle.std.specs.Prelude.{◌≡◌};
    ghost use Rattle.scasp_sessions.specs.declared.errors.OpenErr.TheVariants as errors;

    ghost from_gives = { λ _ error. error ≡ errors.Memory };

    fn from(_error: AllocFailed<T>) -> OpenErr {
        OpenErr::Memory
    }
}

/// No open session has the number.
#[derive(Clone, Copy, Debug, PartialEq, Eq)]
pub struct NoSession;
