//! What is asked of a list, and why a question is not answered.
ghost use Rattle.std.specs.Prelude.{◌≡◌, [], ◌∷◌, ◌++◌, true, IfOk};
ghost use Rattle.scasp_hint.specs.Finding.{overflows_in};
ghost use Rattle.scasp_hint.specs.Satisfying.{sat};

use scasp_hint::is_satisfiable;
use scasp_list::Memory;
use scasp_rows::LinErr;
use scasp_syntax::Con;
use std::alloc::{AllocError, AllocFailed, Global};
use thiserror::Error;

/// What became of a constraint that was assumed.
#[derive(Clone, Copy, Debug, PartialEq, Eq)]
pub enum Assumed {
    /// The list entails the constraint.
    Entailed,
    /// The list with the constraint has no valuation.
    Impossible,
    /// The constraint stands last in the list.
    Added,
}

/// Why a question is not answered.
#[derive(Clone, Copy, Debug, PartialEq, Eq, Error)]
pub enum StoreErr {
    #[error("a number is too large, or there are too many rows")]
    Overflow,
    #[error("out of memory")]
    Memory,
}

impl From<Memory> for StoreErr {
    ghost use Rattle.scasp_constraint_store.specs.declared.asking.StoreErr.TheVariants as errors;

    ghost from_gives = { λ _ e. e ≡ errors.Memory };

    fn from(_error: Memory) -> Self {
        StoreErr::Memory
    }
}

impl From<AllocError> for StoreErr {
    ghost use Rattle.scasp_constraint_store.specs.declared.asking.StoreErr.TheVariants as errors;

    ghost from_gives = { λ _ e. e ≡ errors.Memory };

    fn from(_error: AllocError) -> Self {
        StoreErr::Memory
    }
}

impl<T: Drop> From<AllocFailed<T>> for StoreErr {
    ghost use Rattle.scasp_constraint_store.specs.declared.asking.StoreErr.TheVariants as errors;

    ghost from_gives = { λ _ e. e ≡ errors.Memory };

    fn from(_error: AllocFailed<T>) -> Self {
        StoreErr::Memory
    }
}

/// Whether the list passes the test of `scasp_hint`. Overflow only where this list overflows.
fn passes(alloc: Global, list: &[Con]) -> Result<bool, StoreErr>
    ensures value { IfOk result (λ passes. passes ≡ sat list.now) }
    ensures overflow { result ≡ Err StoreErr.Overflow → overflows_in list.now ≡ true }
{
    match is_satisfiable(alloc, list) {
        Ok(passes) => Ok(passes),
        Err(LinErr::Overflow) => Err(StoreErr::Overflow),
        Err(LinErr::Memory) => Err(StoreErr::Memory),
    }
}

/// Whether the list with this constraint behind the others passes the test. The list stays as it is.
pub(crate) fn passes_with(alloc: Global, list: &mut Vec<Con>, last: Con) -> Result<bool, StoreErr>
    ensures value { IfOk result (λ passes. passes ≡ sat (list.old.items ++ last ∷ [])) }
    ensures overflow { result ≡ Err StoreErr.Overflow → overflows_in (list.old.items ++ last ∷ []) ≡ true }
    ensures list { list.new.items ≡ list.old.items }
{
    list.push(last)?;
    let answer = passes(alloc, list.as_slice());
    let _last = list.pop();
    answer
}
