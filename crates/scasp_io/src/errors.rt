ghost use Rattle.std.specs.Prelude.{◌≡◌};
ghost use Rattle.scasp_io.specs.declared.errors.OutputErr.TheVariants as output_err;
ghost use Rattle.scasp_io.specs.declared.errors.ReadErr.TheVariants as read_err;

use scasp_list::Memory;
use std::alloc::AllocError;
use thiserror::Error;

/// One read or one write failed, and the object counted the fault.
#[derive(Clone, Copy, Debug, PartialEq, Eq, Error)]
#[error("a read or a write failed")]
pub struct Failed;

/// The sink did not take all the bytes, and counted the fault.
#[derive(Clone, Copy, Debug, PartialEq, Eq, Error)]
#[error("a write failed")]
pub struct SinkFault;

/// Why a file was not read to its end.
#[derive(Clone, Copy, Debug, PartialEq, Eq, Error)]
pub enum ReadErr {
    #[error("a read failed")]
    Fault,
    #[error("the file has more bytes than the limit")]
    TooLong,
    #[error("out of memory")]
    Memory,
}

impl From<Failed> for SinkFault {
    fn from(_error: Failed) -> SinkFault {
        SinkFault
    }
}

impl From<Failed> for ReadErr {
    ghost from_gives = { λ _ error. error ≡ read_err.Fault };

    fn from(_error: Failed) -> ReadErr {
        ReadErr::Fault
    }
}

impl From<AllocError> for ReadErr {
    ghost from_gives = { λ _ error. error ≡ read_err.Memory };

    fn from(_error: AllocError) -> ReadErr {
        ReadErr::Memory
    }
}

/// Why a text that is made and written piece by piece was not written to its end.
#[derive(Clone, Copy, Debug, PartialEq, Eq, Error)]
pub enum OutputErr {
    #[error("a write failed")]
    Write,
    #[error("out of memory")]
    Memory,
}

impl From<SinkFault> for OutputErr {
    ghost from_gives = { λ _ error. error ≡ output_err.Write };

    fn from(_error: SinkFault) -> OutputErr {
        OutputErr::Write
    }
}

impl From<Memory> for OutputErr {
    ghost from_gives = { λ _ error. error ≡ output_err.Memory };

    fn from(_error: Memory) -> OutputErr {
        OutputErr::Memory
    }
}
