//! Why a hint does not show that a list of constraints has no valuation.
ghost use Rattle.std.specs.Prelude.{◌≡◌};

use scasp_list::Memory;
use scasp_num::RowErr;
use scasp_rows::StepErr;
use std::alloc::{AllocError, AllocFailed};
use thiserror::Error;

/// Why a hint does not show that a list of constraints has no valuation.
#[derive(Clone, Copy, Debug, PartialEq, Eq, Error)]
pub enum HintFault {
    #[error("a step, a disequation or a list of steps is not there")]
    Step,
    #[error("a number is too large")]
    Overflow,
    #[error("no false row is reached")]
    NotReached,
}

/// Why a hint is not accepted: its first fault, or want of memory, which says nothing of the hint.
#[derive(Clone, Copy, Debug, PartialEq, Eq, Error)]
pub enum HintErr {
    #[error("{0}")]
    Fault(HintFault),
    #[error("out of memory")]
    Memory,
}

impl From<Memory> for HintErr {
    ghost use Rattle.scasp_hint.specs.declared.fault.HintErr.TheVariants as errors;

    ghost from_gives = { λ _ e. e ≡ errors.Memory };

    fn from(_error: Memory) -> Self {
        HintErr::Memory
    }
}

impl From<AllocError> for HintErr {
    ghost use Rattle.scasp_hint.specs.declared.fault.HintErr.TheVariants as errors;

    ghost from_gives = { λ _ e. e ≡ errors.Memory };

    fn from(_error: AllocError) -> Self {
        HintErr::Memory
    }
}

impl<T: Drop> From<AllocFailed<T>> for HintErr {
    ghost use Rattle.scasp_hint.specs.declared.fault.HintErr.TheVariants as errors;

    ghost from_gives = { λ _ e. e ≡ errors.Memory };

    fn from(_error: AllocFailed<T>) -> Self {
        HintErr::Memory
    }
}

impl From<HintFault> for HintErr {
    ghost use Rattle.scasp_hint.specs.declared.fault.HintErr.TheVariants as errors;

    ghost from_gives = { λ fault e. e ≡ errors.Fault fault };

    fn from(fault: HintFault) -> Self {
        HintErr::Fault(fault)
    }
}

impl From<RowErr> for HintErr {
    ghost use Rattle.scasp_hint.specs.Verdicts.{IsRowFault};

    ghost from_gives = { IsRowFault };

    fn from(error: RowErr) -> Self {
        match error {
            RowErr::Overflow => HintErr::Fault(HintFault::Overflow),
            RowErr::Memory => HintErr::Memory,
        }
    }
}

impl From<StepErr> for HintErr {
    ghost use Rattle.scasp_hint.specs.Verdicts.{IsStepFault};

    ghost from_gives = { IsStepFault };

    fn from(error: StepErr) -> Self {
        match error {
            StepErr::Overflow => HintErr::Fault(HintFault::Overflow),
            StepErr::Sign => HintErr::Fault(HintFault::Step),
            StepErr::Memory => HintErr::Memory,
        }
    }
}
