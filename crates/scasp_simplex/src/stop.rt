//! Why the tableau gives no verdict.
use scasp_list::Memory;
use scasp_num::Overflow;
use scasp_rows::StepErr;
use std::alloc::{AllocError, AllocFailed};

/// Why the tableau gives no verdict.
#[derive(Clone, Copy)]
pub(crate) enum Stop {
    /// A number is too large, or there were too many pivots.
    Lost,
    Memory,
}

impl From<Overflow> for Stop {
    fn from(_error: Overflow) -> Stop {
        Stop::Lost
    }
}

impl From<Memory> for Stop {
    fn from(_error: Memory) -> Stop {
        Stop::Memory
    }
}

impl From<AllocError> for Stop {
    fn from(_error: AllocError) -> Stop {
        Stop::Memory
    }
}

impl<T: Drop> From<AllocFailed<T>> for Stop {
    fn from(_error: AllocFailed<T>) -> Stop {
        Stop::Memory
    }
}

impl From<StepErr> for Stop {
    fn from(error: StepErr) -> Stop {
        match error {
            StepErr::Overflow | StepErr::Sign => Stop::Lost,
            StepErr::Memory => Stop::Memory,
        }
    }
}
