//! Pairs of a lower and an upper row: how their sums end an elimination, whatever rows stand.
ghost use Rattle.std.specs.Prelude.{◌≡◌, IfOk};
ghost use Rattle.scasp_rows.specs.Elimination.{Ends};
ghost use Rattle.scasp_rows.specs.Inside.Outlooks.{all_paired_steps, meeting, met_outlook, outlook_of, paired_steps, stepped};
ghost use Rattle.scasp_rows.specs.Steps.{row_sum};

use crate::range::{has_variable, sum_fits};
use crate::rows::{factor, is_false, share, size_over};
use crate::state::{Halt, Standing, State, unsat, with_step};
use crate::steps::row_sum;
use scasp_list::Memory;
use scasp_num::{Row, RowErr, Step};
use std::alloc::Global;

/// What a sum of two rows does.
#[derive(Clone, Copy, Debug, PartialEq, Eq)]
pub(crate) enum Outlook {
    /// The elimination goes on.
    Open,
    /// A false constant row ends it.
    False,
    /// An integer that is too large ends it.
    Overflow,
}

/// The step that makes the row without `x` of a lower row and an upper row.
pub(crate) fn meeting(x: u64, l: &Standing, u: &Standing) -> Step
    ensures { result ≡ meeting x l.now u.now }
{
    let b = factor(x, l);
    let a = factor(x, u);
    let g = share(b, a);
    Step {
        a: size_over(a, g),
        p: l.number,
        b: size_over(b, g),
        q: u.number,
    }
}

/// What `a` times `p` plus `b` times `q` does. The row itself is made only where no variable is left.
fn sum_outlook(alloc: Global, a: i128, p: &Row, b: i128, q: &Row) -> Result<Outlook, Memory>
    ensures { IfOk result (λ outlook. outlook ≡ outlook_of (row_sum a p.now b q.now)) }
{
    if !sum_fits(a, p, b, q) {
        return Ok(Outlook::Overflow);
    }
    if has_variable(a, p, b, q) {
        return Ok(Outlook::Open);
    }
    match row_sum(alloc, a, p, b, q) {
        Ok(row) => Ok(if is_false(&row) {
            Outlook::False
        } else {
            Outlook::Open
        }),
        Err(RowErr::Overflow) => Ok(Outlook::Overflow),
        Err(RowErr::Memory) => Err(Memory),
    }
}

/// What the lower row and the upper row do.
pub(crate) fn met_outlook(
    alloc: Global,
    x: u64,
    l: &Standing,
    u: &Standing,
) -> Result<Outlook, Memory>
    ensures { IfOk result (λ outlook. outlook ≡ met_outlook x l.now u.now) }
{
    let step = meeting(x, l, u);
    sum_outlook(alloc, step.a, &l.row, step.b, &u.row)
}

/// The state after the step of a lower row and an upper row; no row is kept.
fn met_step(alloc: Global, x: u64, l: &Standing, u: &Standing, state: State) -> Result<State, Halt>
    ensures { Ends result (stepped (met_outlook x l.now u.now) (meeting x l.now u.now) state) }
{
    let step = meeting(x, l, u);
    match sum_outlook(alloc, step.a, &l.row, step.b, &u.row)? {
        Outlook::Open => Ok(with_step(state, step)?),
        Outlook::False => Err(unsat(with_step(state, step)?)),
        Outlook::Overflow => Err(Halt::Overflow),
    }
}

/// The state after the steps of the lower row and each upper row; no row is kept.
fn paired_steps(
    alloc: Global,
    x: u64,
    l: &Standing,
    uppers: &[Standing],
    start: State,
) -> Result<State, Halt>
    ensures { Ends result (paired_steps x l.now uppers.now start) }
{
    let mut state = start;
    for u in uppers {
        state = met_step(alloc, x, l, u, state)?;
    }
    Ok(state)
}

/// The state after the steps of each lower row and each upper row; no row is kept.
pub(crate) fn all_paired_steps(
    alloc: Global,
    x: u64,
    lowers: &[Standing],
    uppers: &[Standing],
    start: State,
) -> Result<State, Halt>
    ensures { Ends result (all_paired_steps x lowers.now uppers.now start) }
{
    let mut state = start;
    for l in lowers {
        state = paired_steps(alloc, x, l, uppers, state)?;
    }
    Ok(state)
}
