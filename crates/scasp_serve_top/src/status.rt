//! How the serving of commands ends.
ghost use Rattle.std.specs.Prelude.{◌≡◌};
ghost use Rattle.scasp_serve_top.specs.Statuses.{IsServeStatus, status_of};

use scasp_command_inputs::Status;

/// How the serving of commands ends; each is a status of `scasp` too.
#[derive(Clone, Copy, Debug, PartialEq, Eq)]
pub enum ServeStatus {
    /// Each command has its reply.
    Done,
    /// There are not two words.
    Usage,
    /// The bytes of the program or of the commands are not in their grammar.
    Text,
    /// The program or the commands could not be read.
    Read,
    /// A write failed.
    Write,
    /// Want of memory.
    Memory,
    /// A count passes its limit: bytes of a file, or a count of the program's text.
    Limit,
}

impl ServeStatus {
    ghost use Rattle.std.specs.Prelude.{◌≡◌};
    ghost use Rattle.scasp_command_inputs.specs.Codes.{code_of};
    ghost use Rattle.scasp_serve_top.specs.Statuses.{status_of};

    /// The status of `scasp` that is the same.
    pub fn status(self) -> Status
        ensures { result ≡ status_of self }
    {
        match self {
            ServeStatus::Done => Status::Done,
            ServeStatus::Usage => Status::Usage,
            ServeStatus::Text => Status::Text,
            ServeStatus::Read => Status::Read,
            ServeStatus::Write => Status::Write,
            ServeStatus::Memory => Status::Memory,
            ServeStatus::Limit => Status::Limit,
        }
    }

    /// The exit code of the program, as that of `scasp`.
    pub fn code(self) -> u8
        ensures { result ≡ code_of (status_of self) }
    {
        self.status().code()
    }
}

/// The status, which is one of these.
pub(crate) fn serve_status(status: Status) -> ServeStatus
    requires { IsServeStatus status }
    ensures { status_of result ≡ status }
{
    match status {
        Status::Done => ServeStatus::Done,
        Status::Usage => ServeStatus::Usage,
        Status::Text => ServeStatus::Text,
        Status::Read => ServeStatus::Read,
        Status::Write => ServeStatus::Write,
        Status::Memory => ServeStatus::Memory,
        Status::Limit => ServeStatus::Limit,
        Status::NoAnswer | Status::Spent | Status::Overflow | Status::Refused | Status::NoModel =>
            unreachable!(),
    }
}
