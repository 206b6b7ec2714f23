//! The rows that stand in an elimination.
ghost use Rattle.std.specs.Prelude.{◌≡◌, ◌+◌, ◌++◌, [], ◌∷◌, IfOk};

use scasp_list::{Memory, Sequence};
use scasp_num::{Row, RowErr, Step, Steps};
use std::alloc::AllocError;

/// A row that stands, with its number: the given rows have the first numbers, from 1, and each row that a
/// step makes the next one.
#[derive(Clone, Debug, Drop)]
pub struct Standing {
    pub number: u64,
    pub row: Row,
}

/// A list of rows that stand.
pub type StandingRows = Sequence<Standing>;

/// The rows that stand, the steps made so far, and how many rows there are: the given ones and one for each
/// step.
#[derive(Debug, Drop)]
pub struct State {
    pub standing: StandingRows,
    pub steps: Steps,
    pub last: u64,
}

/// Why an elimination ends before all variables are gone.
#[derive(Debug, Drop)]
pub enum Halt {
    /// The steps reach a false constant row.
    Unsat(Steps),
    /// An integer is too large, or too many rows stand.
    Overflow,
    Memory,
}

/// How a number compares with 0.
#[derive(Clone, Copy, Debug, PartialEq, Eq)]
pub enum Sign {
    Below,
    Zero,
    Above,
}

impl From<Memory> for Halt {
    ghost use Rattle.scasp_rows.specs.declared.state.Halt.TheVariants as halts;

    ghost from_gives = { λ _ e. e ≡ halts.Memory };

    fn from(_error: Memory) -> Self {
        Halt::Memory
    }
}

impl From<RowErr> for Halt {
    ghost use Rattle.scasp_rows.specs.Inside.Halting.{IsHalt};

    ghost from_gives = { IsHalt };

    fn from(error: RowErr) -> Self {
        match error {
            RowErr::Overflow => Halt::Overflow,
            RowErr::Memory => Halt::Memory,
        }
    }
}

impl From<AllocError> for Halt {
    ghost use Rattle.scasp_rows.specs.declared.state.Halt.TheVariants as halts;

    ghost from_gives = { λ _ e. e ≡ halts.Memory };

    fn from(_error: AllocError) -> Self {
        Halt::Memory
    }
}

/// A copy of a row that stands.
pub(crate) fn copy(r: &Standing) -> Result<Standing, Memory>
    ensures { IfOk result (λ s. s ≡ r.now) }
{
    Ok(Standing {
        number: r.number,
        row: r.row.clone()?,
    })
}

/// The end by the steps that were made.
pub(crate) fn unsat(state: State) -> Halt
    ensures { result ≡ Halt.Unsat state.steps }
{
    let State { steps, .. } = state;
    Halt::Unsat(steps)
}

/// The state with one more row that stands.
pub(crate) fn with_row(mut state: State, r: Standing) -> Result<State, Memory>
    ensures { IfOk result (λ s. s ≡ record { standing = state.standing ++ r ∷ []; steps = state.steps; last = state.last }) }
{
    state.standing.push(r)?;
    Ok(state)
}

/// The number after this one.
pub(crate) fn next(number: u64) -> Result<u64, Memory>
    ensures { IfOk result (λ n. n ≡ number + 1) }
{
    number.checked_add(1).ok_or(Memory)
}

/// The state with one more step.
pub(crate) fn with_step(mut state: State, step: Step) -> Result<State, Memory>
    ensures { IfOk result (λ s. s ≡ record { standing = state.standing; steps = state.steps ++ step ∷ []; last = state.last + 1 }) }
{
    state.last = next(state.last)?;
    state.steps.push(step)?;
    Ok(state)
}
