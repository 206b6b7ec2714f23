//! The lists that a step of the search asks, and why one is not taken.
ghost use Rattle.std.specs.Prelude.{◌≡◌, [], ◌∷◌};
ghost use Rattle.scasp_search_constraints.specs.Assuming.Taken.{Gives};
ghost use Rattle.scasp_hint.specs.Satisfying.{sat};

use scasp_hint::is_satisfiable;
use scasp_list::Memory;
use scasp_rows::LinErr;
use scasp_syntax::Con;
use std::alloc::{AllocError, AllocFailed, Global};
use thiserror::Error;

/// Why a step is not taken.
#[derive(Clone, Copy, Debug, PartialEq, Eq, Error)]
pub enum SearchErr {
    #[error("a number is too large, or there are too many rows")]
    Overflow,
    #[error("out of memory")]
    Memory,
}

impl From<Memory> for SearchErr {
    ghost use Rattle.scasp_search_constraints.specs.declared.assuming.step.SearchErr.TheVariants as errors;

    ghost from_gives = { λ _ e. e ≡ errors.Memory };

    fn from(_error: Memory) -> Self {
        SearchErr::Memory
    }
}

impl From<AllocError> for SearchErr {
    ghost use Rattle.scasp_search_constraints.specs.declared.assuming.step.SearchErr.TheVariants as errors;

    ghost from_gives = { λ _ e. e ≡ errors.Memory };

    fn from(_error: AllocError) -> Self {
        SearchErr::Memory
    }
}

impl<T: Drop> From<AllocFailed<T>> for SearchErr {
    ghost use Rattle.scasp_search_constraints.specs.declared.assuming.step.SearchErr.TheVariants as errors;

    ghost from_gives = { λ _ e. e ≡ errors.Memory };

    fn from(_error: AllocFailed<T>) -> Self {
        SearchErr::Memory
    }
}

/// Whether the list has a valuation, by the test of `scasp_hint`. Overflow only where the list's arithmetic overflows.
pub fn passes(alloc: Global, list: &[Con]) -> Result<bool, SearchErr>
    ensures { Gives result (sat list.now) (list.now ∷ []) }
{
    match is_satisfiable(alloc, list) {
        Ok(passes) => Ok(passes),
        Err(LinErr::Overflow) => Err(SearchErr::Overflow),
        Err(LinErr::Memory) => Err(SearchErr::Memory),
    }
}
