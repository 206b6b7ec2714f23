//! Why there is no grounding.
use scasp_list::Memory;
use thiserror::Error;

/// Why there is no grounding.
#[derive(Clone, Copy, Debug, PartialEq, Eq, Error)]
pub enum GroundErr {
    /// There are more than 1,000,000 instances.
    #[error("too many instances")]
    TooLarge,
    /// The sum of a row is past the range of the numbers.
    #[error("a number is too large")]
    Overflow,
    /// No memory was left.
    #[error("out of memory")]
    Memory,
}

impl From<Memory> for GroundErr {
    ghost use Rattle.std.specs.Prelude.{◌≡◌};
    ghost use Rattle.scasp_ground.specs.declared.error.GroundErr.TheVariants as errors;

    ghost from_gives = { λ _ e. e ≡ errors.Memory };

    fn from(_error: Memory) -> GroundErr {
        GroundErr::Memory
    }
}
