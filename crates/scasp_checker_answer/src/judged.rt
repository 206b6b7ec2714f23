//! Answers of the parts: nothing is wrong, the first fault, or want of memory.
ghost use Rattle.std.specs.Prelude.{◌≡◌};
ghost use Rattle.scasp_checker_rules.specs.Refusals.{wants};
ghost use Rattle.scasp_checker_answer.specs.Judged.{Judges};

use scasp_checker_rules::{Reason, Refusal};
use scasp_list::Memory;

/// Why there is no verdict.
#[derive(Clone, Copy, Debug, PartialEq, Eq)]
pub enum CheckErr {
    /// The certificate is not accepted.
    Refused(Refusal),
    /// Want of memory.
    Memory,
}

impl From<Memory> for CheckErr {
    ghost use Rattle.std.specs.Prelude.{◌≡◌};
    ghost use Rattle.scasp_checker_answer.specs.declared.judged.CheckErr.TheVariants as errors;

    ghost from_gives = { λ _ e. e ≡ errors.Memory };

    fn from(_memory: Memory) -> CheckErr {
        CheckErr::Memory
    }
}

/// A refusal at this line for this reason, unless the test holds.
pub fn want(line: u64, reason: Reason, holds: bool) -> Result<(), CheckErr>
    ensures { Judges result (wants line reason holds) }
{
    if holds {
        return Ok(());
    }
    Err(CheckErr::Refused(Refusal { at: line, reason }))
}
