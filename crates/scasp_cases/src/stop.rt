//! Why a case does not go on.
use scasp_list::Memory;
use std::alloc::{AllocError, AllocFailed};

/// Why a case does not go on.
#[derive(Clone, Copy)]
pub enum Stop {
    /// Something else came than should have.
    Differs,
    /// The line is no step, or a step that lacks its file.
    NoStep,
    /// Want of memory.
    Memory,
}

impl From<AllocError> for Stop {
    fn from(_error: AllocError) -> Stop {
        Stop::Memory
    }
}

impl<T: Drop> From<AllocFailed<T>> for Stop {
    fn from(_error: AllocFailed<T>) -> Stop {
        Stop::Memory
    }
}

impl From<Memory> for Stop {
    fn from(_error: Memory) -> Stop {
        Stop::Memory
    }
}

/// Something else came, unless it is so.
pub fn expect(is_so: bool) -> Result<(), Stop> {
    if is_so { Ok(()) } else { Err(Stop::Differs) }
}

/// The number that the word writes; `NoStep` where it writes none.
pub fn number_of(word: &str) -> Result<u64, Stop> {
    match word.parse() {
        Ok(number) => Ok(number),
        Err(_) => Err(Stop::NoStep),
    }
}
