//! The elimination of variables (Fourier 1826, Motzkin 1936).
ghost use Rattle.std.specs.Prelude.{◌≡◌, ◌≢◌, ◌+◌, ◌++◌, ◌<◌, ◌≤◌, true, false, [], ◌∷◌, IfOk, OnOk, drop, filter, length, slice_get, slice_index, take};
ghost use Rattle.std.specs.Option.{option_copied};
ghost use Rattle.scasp_list.specs.Each.{Each};
ghost use Rattle.scasp_num.specs.Linear.{IsNormal};
ghost use Rattle.scasp_rows.specs.Elimination.{Ends, all_looked, all_paired, and_then, by_bounds, by_equation, eliminated, elimination, first_equation, limited, looked, met, others, paired, placed, rows_with, variables, with_terms, without};
ghost use Rattle.scasp_rows.specs.Inside.Outlooks.{all_paired_steps, any_false};
ghost use Rattle.scasp_rows.specs.declared.state.State.{State as ThisState};

use crate::falsity::any_false;
use crate::indexed::Indexed;
use crate::outlook::{all_paired_steps, meeting};
use crate::replacing::{equation_place, solved};
use crate::rows::{factor, has_sign, solves};
use crate::state::{Halt, Sign, Standing, StandingRows, State, copy, next};
use crate::steps::row_sum;
use scasp_list::Memory;
use scasp_num::{Coeff, Row, Steps};
use std::alloc::Global;

/// As many rows may stand after a variable.
const LIMIT: usize = 4096;

/// Makes the row without `x` of a lower row and an upper row.
fn met(alloc: Global, x: u64, l: &Standing, u: &Standing, state: Indexed) -> Result<Indexed, Halt>
    ensures { Ends result (met x l.now u.now state) }
{
    let step = meeting(x, l, u);
    let row = row_sum(alloc, step.a, &l.row, step.b, &u.row)?;
    let state = state.with_step(step)?;
    let number = state.last();
    state.looked(Standing { number, row })
}

/// The rows in which the coefficient of `x` compares so with 0.
fn rows_with(alloc: Global, sign: Sign, x: u64, rows: &StandingRows) -> Result<StandingRows, Memory>
    ensures { IfOk result (λ kept. kept ≡ rows_with sign x rows.now) }
{
    let mut kept = StandingRows::new(alloc);
    for r in rows.as_slice() {
        if has_sign(sign, factor(x, r)) {
            kept.push(copy(r)?)?;
        }
    }
    Ok(kept)
}

/// The first equation with `x`.
pub(crate) fn first_equation(x: u64, rows: &[Standing]) -> Option<&Standing>
    ensures { option_copied result ≡ first_equation x rows.now }
{
    for r in rows {
        if solves(x, r) {
            return Some(r);
        }
    }
    None
}

/// The lower row with each upper row, in order.
fn paired(
    alloc: Global,
    x: u64,
    l: &Standing,
    uppers: &[Standing],
    start: Indexed,
) -> Result<Indexed, Halt>
    ensures { Ends result (paired x l.now uppers.now start) }
{
    let mut state = start;
    for u in uppers {
        state = met(alloc, x, l, u, state)?;
    }
    Ok(state)
}

/// The rows without `x`.
fn rows_without(alloc: Global, x: u64, rows: StandingRows) -> Result<StandingRows, Memory>
    ensures { IfOk result (λ kept. kept ≡ rows_with Sign.Zero x rows) }
{
    let mut kept = StandingRows::new(alloc);
    for r in rows.into_vec() {
        if has_sign(Sign::Zero, factor(x, &r)) {
            kept.push(r)?;
        }
    }
    Ok(kept)
}

/// Each lower row with each upper row, in order, where no sum is a false row. So once too many rows stand, no
/// more need be made.
#[tactic(auto, using(crate::proofs::Pairing::overflowing))]
fn all_paired(
    alloc: Global,
    x: u64,
    lowers: &[Standing],
    uppers: &[Standing],
    start: Indexed,
) -> Result<State, Halt>
    requires { any_false x lowers.now uppers.now ≡ false }
    ensures { Ends result (and_then (all_paired x lowers.now uppers.now start) limited) }
{
    let mut state = start;
    for l in lowers {
        if state.count() > LIMIT {
            return Err(Halt::Overflow);
        }
        state = paired(alloc, x, l, uppers, state)?;
    }
    limited(state.into_state())
}

/// The end of the elimination by the pairs in order, where some sum is a false row. No row is kept.
fn falsified(
    alloc: Global,
    x: u64,
    lowers: &[Standing],
    uppers: &[Standing],
    steps: Steps,
    last: u64,
) -> Halt
    requires { any_false x lowers.now uppers.now ≡ true }
    ensures { Ends {A = ThisState} (Err result) (all_paired_steps x lowers.now uppers.now (record { standing = []; steps = steps; last = last })) }
{
    let start = State {
        standing: StandingRows::new(alloc),
        steps,
        last,
    };
    match all_paired_steps(alloc, x, lowers, uppers, start) {
        Ok(_) => unreachable!(),
        Err(halt) => halt,
    }
}

/// Overflow where too many rows stand.
fn limited(state: State) -> Result<State, Halt>
    ensures { Ends result (limited state) }
{
    if state.standing.as_slice().len() > LIMIT {
        return Err(Halt::Overflow);
    }
    Ok(state)
}

/// Sets the rows with `x` aside, where no equation has it. Whether some sum is a false row is known before any
/// row is kept.
fn by_bounds(
    alloc: Global,
    x: u64,
    rows: StandingRows,
    steps: Steps,
    last: u64,
) -> Result<State, Halt>
    ensures { Ends result (and_then (by_bounds x rows steps last) limited) }
{
    let lowers = rows_with(alloc, Sign::Below, x, &rows)?;
    let uppers = rows_with(alloc, Sign::Above, x, &rows)?;
    let (lowers, uppers) = (lowers.as_slice(), uppers.as_slice());
    if any_false(alloc, x, lowers, uppers)? {
        return Err(falsified(alloc, x, lowers, uppers, steps, last));
    }
    let standing = rows_without(alloc, x, rows)?;
    let state = State {
        standing,
        steps,
        last,
    };
    let pairs = lowers.len().saturating_mul(uppers.len());
    let kept = Indexed::of(alloc, state, pairs)?;
    all_paired(alloc, x, lowers, uppers, kept)
}

/// Takes the equation with `x` from its place, and replaces `x` by it in the other rows.
fn by_equation(
    alloc: Global,
    x: u64,
    place: usize,
    rows: StandingRows,
    steps: Steps,
    last: u64,
) -> Result<State, Halt>
    requires within { place < length rows }
    requires first { slice_get rows place ≡ first_equation x rows }
    requires others { take place rows ++ drop (place + 1) rows ≡ others x rows }
    ensures { Ends result (by_equation x (record { standing = rows; steps = steps; last = last }) (first_equation x rows)) }
{
    let mut rows = rows.into_vec();
    let p = rows.remove(place);
    let standing = StandingRows::from(rows);
    let rest = State {
        standing,
        steps,
        last,
    };
    solved(alloc, x, &p, rest)
}

/// Eliminates `x`: the rows without it that follow from those that stand.
#[tactic(auto, unfolding(crate::specs::Elimination::without))]
pub(crate) fn without(alloc: Global, x: u64, state: State) -> Result<State, Halt>
    ensures { Ends result (without x state) }
{
    let State {
        standing,
        steps,
        last,
    } = state;
    match equation_place(x, standing.as_slice()) {
        Some(place) => limited(by_equation(alloc, x, place, standing, steps, last)?),
        None => by_bounds(alloc, x, standing, steps, last),
    }
}

/// Eliminates the variables in order.
pub(crate) fn eliminated(alloc: Global, variables: &[u64], start: State) -> Result<State, Halt>
    ensures { Ends result (eliminated variables.now start) }
{
    let mut state = start;
    for x in variables {
        state = without(alloc, *x, state)?;
    }
    Ok(state)
}

/// Looks at a given row.
fn given(row: &Row, number: u64, state: Indexed) -> Result<Indexed, Halt>
    ensures { Ends result (looked (record { number = number; row = row.now }) [] state) }
{
    let row = row.clone()?;
    state.looked(Standing { number, row })
}

/// Looks at the given rows in order.
pub(crate) fn all_looked(alloc: Global, rows: &[Row]) -> Result<State, Halt>
    ensures { Ends result (all_looked 1 rows.now (record { standing = []; steps = []; last = length rows.now })) }
{
    let start = State {
        standing: StandingRows::new(alloc),
        steps: Steps::new(alloc),
        last: rows.len() as u64,
    };
    let mut state = Indexed::of(alloc, start, rows.len())?;
    let mut number = 0;
    for row in rows {
        number = next(number)?;
        state = given(row, number, state)?;
    }
    Ok(state.into_state())
}

/// The place of the first variable that is not less, or of the end.
fn place_of(x: u64, variables: &[u64]) -> usize
    ensures within { result ≤ length variables.now }
    ensures first { result < length variables.now → x ≤ slice_index variables.now result }
    ensures placed { placed x variables.now ≡ take result variables.now ++ placed x (drop result variables.now) }
{
    for (i, y) in variables.iter().enumerate() {
        if *y >= x {
            return i;
        }
    }
    variables.len()
}

/// The variable put among others that ascend.
fn placed(x: u64, variables: Vec<u64>) -> Result<Vec<u64>, Memory>
    ensures { IfOk result (λ all. all.items ≡ placed x variables.items) }
{
    let mut all = variables;
    let place = place_of(x, all.as_slice());
    if place == all.len() {
        all.push(x)?;
        return Ok(all);
    }
    if all[place] != x {
        all.insert(place, x)?;
        return Ok(all);
    }
    Ok(all)
}

/// The variables, and those of the terms.
fn with_terms(terms: &[Coeff], start: Vec<u64>) -> Result<Vec<u64>, Memory>
    ensures { IfOk result (λ all. all.items ≡ with_terms terms.now start.items) }
{
    let mut all = start;
    for k in terms {
        all = placed(k.x, all)?;
    }
    Ok(all)
}

/// The variables of the rows, ascending.
pub fn variables(alloc: Global, rows: &[Row]) -> Result<Vec<u64>, Memory>
    ensures value { IfOk result (λ all. all.items ≡ variables [] rows.now) }
    ensures normal { OnOk result (Each IsNormal rows.now) }
{
    let mut all = Vec::new(alloc);
    for row in rows {
        all = with_terms(row.coeffs().as_slice(), all)?;
    }
    Ok(all)
}

/// Eliminates all variables of the rows.
#[tactic(auto, unfolding(crate::specs::Elimination::elimination))]
pub(crate) fn elimination(alloc: Global, rows: &[Row]) -> Result<State, Halt>
    ensures exact { Ends result (elimination rows.now) }
    ensures normal { result ≢ Err Halt.Memory → Each IsNormal rows.now }
{
    let variables = variables(alloc, rows)?;
    let state = all_looked(alloc, rows)?;
    eliminated(alloc, variables.as_slice(), state)
}
