//! How a command ended.

/// How a command ended.
#[derive(Clone, Copy, Debug, PartialEq, Eq)]
pub enum Status {
    /// An answer was printed, and each query ended or was stopped; or each block that was checked is accepted; or a trial came to an
    /// answer.
    Done,
    /// The search for answers to each query ended without one.
    NoAnswer,
    /// The words are no command.
    Usage,
    /// The bytes of the program or of the answers are not in their grammar.
    Text,
    /// The program or the answers could not be read.
    Read,
    /// A write failed.
    Write,
    /// The search for answers to a query makes more calls than the budget.
    Spent,
    /// Arithmetic past 128 bits.
    Overflow,
    /// Want of memory.
    Memory,
    /// A block that was checked is not accepted.
    Refused,
    /// Every block is accepted, and above one no model was made.
    NoModel,
    /// A count passes its limit: bytes of a file; clauses, items of a body, variables, arguments or brackets of a program's text.
    Limit,
}

impl Status {
    ghost use Rattle.std.specs.Prelude.{◌≡◌};
    ghost use Rattle.scasp_command_inputs.specs.Codes.{code_of};

    /// The exit code of the program: 0 to 9, 11 for `Limit` and 12 for `NoModel`.
    pub fn code(self) -> u8
        ensures { result ≡ code_of self }
    {
        match self {
            Status::Done => 0,
            Status::NoAnswer => 1,
            Status::Usage => 2,
            Status::Text => 3,
            Status::Read => 4,
            Status::Write => 5,
            Status::Spent => 6,
            Status::Overflow => 7,
            Status::Memory => 8,
            Status::Refused => 9,
            Status::Limit => 11,
            Status::NoModel => 12,
        }
    }
}
