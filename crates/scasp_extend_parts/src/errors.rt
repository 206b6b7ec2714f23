//! Why there is no extension.
use scasp_checker_answer::CheckErr;
use scasp_checker_rules::Refusal;
use scasp_graph::MapFault;
use scasp_ground::GroundErr;
use scasp_list::Memory;

/// Why a certificate is not extended over a domain.
#[derive(Clone, Copy, Debug, PartialEq, Eq)]
pub enum ExtendErr {
    /// The certificate is not accepted.
    Refused(Refusal),
    /// Whether there is a model is not shown, since this clause breaks the map.
    Joins(MapFault),
    /// The values of the free variables are of another number, or not ground, or do not meet what is given.
    Given,
    /// There are more than 1,000,000 instances.
    TooLarge,
    /// The sum of a row is past the range of the numbers.
    Overflow,
    /// A term that is listed on this line, a positive literal, has a value outside the domain.
    NotClosed { at: u64 },
    /// Want of memory.
    Memory,
}

impl From<Memory> for ExtendErr {
    ghost use Rattle.std.specs.Prelude.{◌≡◌};
    ghost use Rattle.scasp_extend_parts.specs.declared.errors.ExtendErr.TheVariants as errors;

    ghost from_gives = { λ _ e. e ≡ errors.Memory };

    fn from(_error: Memory) -> ExtendErr {
        ExtendErr::Memory
    }
}

impl From<CheckErr> for ExtendErr {
    ghost use Rattle.std.specs.Prelude.{◌≡◌};
    ghost use Rattle.scasp_extend_parts.specs.Causes.{of_check};

    ghost from_gives = { λ error e. e ≡ of_check error };

    fn from(error: CheckErr) -> ExtendErr {
        match error {
            CheckErr::Refused(refusal) => ExtendErr::Refused(refusal),
            CheckErr::Memory => ExtendErr::Memory,
        }
    }
}

impl From<GroundErr> for ExtendErr {
    ghost use Rattle.std.specs.Prelude.{◌≡◌};
    ghost use Rattle.scasp_extend_parts.specs.Causes.{of_ground};

    ghost from_gives = { λ error e. e ≡ of_ground error };

    fn from(error: GroundErr) -> ExtendErr {
        match error {
            GroundErr::TooLarge => ExtendErr::TooLarge,
            GroundErr::Overflow => ExtendErr::Overflow,
            GroundErr::Memory => ExtendErr::Memory,
        }
    }
}
