//! Why a text is refused.
ghost use Rattle.std.specs.Prelude.{◌≡◌};
ghost use Rattle.scasp_reader_terms.specs.declared.fault.Stop.TheVariants as stops;
ghost use Rattle.scasp_reader_terms.specs.Faults.{is_limit, first_of_two};

use scasp_list::Memory;
use std::alloc::AllocFailed;
use thiserror::Error;

/// What has a limit.
#[derive(Clone, Copy, Debug, PartialEq, Eq, Error)]
pub enum Count {
    #[error("bytes")]
    Bytes,
    #[error("clauses")]
    Clauses,
    #[error("items in a body")]
    Items,
    #[error("variables")]
    Variables,
    #[error("arguments")]
    Arity,
    #[error("nested terms")]
    Depth,
}

/// What is wrong at a byte.
#[derive(Clone, Copy, Debug, PartialEq, Eq, Error)]
pub enum Kind {
    #[error("a byte that no program has here")]
    BadByte,
    #[error("something quoted or in brackets has no end")]
    Unclosed,
    #[error("something else is expected")]
    Expected,
    #[error("the text is not in the language")]
    Unsupported,
    #[error("a constraint is not linear")]
    NotLinear,
    #[error("a number is too large")]
    NumberTooLarge,
    #[error("too many {0}")]
    Limit(Count),
}

/// The first thing that is wrong, at this byte, counted from 0.
#[derive(Clone, Copy, Debug, PartialEq, Eq, Error)]
#[error("{kind} at byte {at}")]
pub struct Fault {
    pub at: u64,
    pub kind: Kind,
}

impl Fault {
    /// The one of the two that is told: of the lesser place; at one place a limit, and then this one.
    pub fn or(self, other: Fault) -> Fault
        ensures { result ≡ first_of_two self other }
    {
        let is_later_limit = other.kind.is_limit() && !self.kind.is_limit();
        if other.at < self.at || other.at == self.at && is_later_limit {
            other
        } else {
            self
        }
    }
}

impl Kind {
    fn is_limit(self) -> bool
        ensures { result ≡ is_limit self }
    {
        matches!(self, Kind::Limit(_))
    }
}

/// Why reading stopped.
#[derive(Clone, Copy, Debug, PartialEq, Eq, Error)]
pub enum Stop {
    #[error("{0}")]
    At(Fault),
    #[error("out of memory")]
    Memory,
}

impl From<Memory> for Stop {
    ghost from_gives = { λ _ stop. stop ≡ stops.Memory };

    fn from(_error: Memory) -> Stop {
        Stop::Memory
    }
}

impl<T: Drop> From<AllocFailed<T>> for Stop {
    ghost from_gives = { λ _ stop. stop ≡ stops.Memory };

    fn from(_error: AllocFailed<T>) -> Stop {
        Stop::Memory
    }
}
