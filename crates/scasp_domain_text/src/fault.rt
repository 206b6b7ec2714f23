//! Why no domain is read.
ghost use Rattle.std.specs.Prelude.{◌≡◌};
ghost use Rattle.scasp_domain_text.specs.declared.fault.DomainErr.TheVariants as errors;

use scasp_list::Memory;

/// What is wrong with a domain file.
#[derive(Clone, Copy)]
pub enum DomainKind {
    /// The line is no ground term, repeats an earlier one, or lacks its end.
    Line,
    /// The file is too long.
    Limit,
}

/// What is first wrong with a domain file, and where: the line's first byte, or the limit.
#[derive(Clone, Copy)]
pub struct DomainFault {
    pub at: u64,
    pub kind: DomainKind,
}

/// Why no domain is read.
#[derive(Clone, Copy)]
pub enum DomainErr {
    /// The bytes are no domain file: the first fault.
    At(DomainFault),
    Memory,
}

impl From<Memory> for DomainErr {
    ghost from_gives = { λ _ error. error ≡ errors.Memory };

    fn from(_error: Memory) -> DomainErr {
        DomainErr::Memory
    }
}
