//! Rows with a variable replaced by an equation, each in its place.
ghost use Rattle.std.specs.Prelude.{◌≡◌, ◌+◌, ◌++◌, ◌||◌, ◌<◌, [], IfOk, MatchOption, None, drop, length, set, slice_get, take};
ghost use Rattle.std.specs.List.{list_any};
ghost use Rattle.scasp_num.specs.Linear.{Gives};
ghost use Rattle.scasp_num.specs.SameRow.{same_row};
ghost use Rattle.scasp_rows.specs.Points.{is_constant};
ghost use Rattle.scasp_rows.specs.Elimination.{Ends, first_equation, looked, others, solved};
ghost use Rattle.scasp_rows.specs.Inside.Replacing.{Goes, Puts, done, left, next_replaced, replacement, solved_from};

use crate::rows::{against, factor, is_constant, is_false, share, size_over, solves, stands};
use crate::state::{Halt, Standing, StandingRows, State, unsat, with_step};
use crate::steps::row_sum;
use scasp_num::{Row, RowErr, Step, Steps};
use std::alloc::Global;

/// The place of the first equation with `x`.
pub(crate) fn equation_place(x: u64, rows: &[Standing]) -> Option<usize>
    ensures { MatchOption result (first_equation x rows.now ≡ None)
        (λ i. (i < length rows.now) × (slice_get rows.now i ≡ first_equation x rows.now) × (take i rows.now ++ drop (i + 1) rows.now ≡ others x rows.now)) }
{
    for (i, r) in rows.iter().enumerate() {
        if solves(x, r) {
            return Some(i);
        }
    }
    None
}

/// A state whose rows before a place are done.
#[derive(Debug, Drop)]
pub(crate) struct Progress {
    pub done: usize,
    pub state: State,
}

/// Whether a row that is not false is dropped from the place: it is constant, or stands already in another place.
#[tactic(auto, using(crate::proofs::Lists::appended))]
fn is_dropped(row: &Row, rows: &[Standing], place: usize) -> bool
    requires { place < length rows.now }
    ensures { result ≡ (is_constant row.now || list_any (λ o. same_row o.row row.now) (take place rows.now ++ drop (place + 1) rows.now)) }
{
    is_constant(row) || stands(&rows[..place], row) || stands(&rows[place + 1..], row)
}

/// Looks at the row that the first row which is left becomes: a false constant row ends the elimination; a true
/// one is dropped, and so is one that stands already; another row stands in its place.
fn put_next(progress: Progress, r: Standing) -> Result<Progress, Halt>
    requires { progress.done < length progress.state.standing }
    ensures { Puts result (drop (progress.done + 1) progress.state.standing) (looked r (drop (progress.done + 1) progress.state.standing) (done progress)) }
{
    let Progress { done, state } = progress;
    if is_false(&r.row) {
        return Err(unsat(state));
    }
    let State {
        standing,
        steps,
        last,
    } = state;
    let mut rows = standing.into_vec();
    if is_dropped(&r.row, rows.as_slice(), done) {
        let _old = rows.remove(done);
        return Ok(progressed(done, rows, steps, last));
    }
    put_at(&mut rows, done, r);
    Ok(progressed(done + 1, rows, steps, last))
}

fn put_at(rows: &mut Vec<Standing>, place: usize, r: Standing)
    requires { place < length rows.old.items }
    ensures { rows.new.items ≡ set rows.old.items place r }
{
    rows[place] = r;
}

fn progressed(done: usize, rows: Vec<Standing>, steps: Steps, last: u64) -> Progress
    ensures { result ≡ record { done = done; state = record { standing = rows.items; steps = steps; last = last } } }
{
    let state = State {
        standing: StandingRows::from(rows),
        steps,
        last,
    };
    Progress { done, state }
}

/// A row, and the step that makes it.
#[derive(Debug, Drop)]
pub(crate) struct Made {
    pub step: Step,
    pub row: Row,
}

/// The row that `q` becomes by the equation `p`, without `x`.
fn replacement(alloc: Global, x: u64, p: &Standing, q: &Standing) -> Result<Made, RowErr>
    ensures { Gives result (replacement x p.now q.now) }
{
    let a = factor(x, p);
    let b = factor(x, q);
    let g = share(a, b);
    let step = Step {
        a: size_over(a, g),
        p: q.number,
        b: against(a, b, g),
        q: p.number,
    };
    let row = row_sum(alloc, step.a, &q.row, step.b, &p.row)?;
    Ok(Made { step, row })
}

/// Makes the row that the first row which is left becomes by the equation `p`, without `x`.
fn replaced_next(alloc: Global, x: u64, p: &Standing, progress: Progress) -> Result<Progress, Halt>
    requires { progress.done < length progress.state.standing }
    ensures { Puts result (drop (progress.done + 1) progress.state.standing) (next_replaced x p.now (left progress) (done progress)) }
{
    let Progress { done, state } = progress;
    let q = &state.standing.as_slice()[done];
    let Made { step, row } = replacement(alloc, x, p, q)?;
    let state = with_step(state, step)?;
    let number = state.last;
    put_next(Progress { done, state }, Standing { number, row })
}

/// By the equation `p`, the first row that is left becomes one without `x`.
fn solved_next(alloc: Global, x: u64, p: &Standing, progress: Progress) -> Result<Progress, Halt>
    requires { progress.done < length progress.state.standing }
    ensures goes { Goes x p.now result (solved_from x p.now progress) }
    ensures fewer { IfOk result (λ g. length (left g) < length (left progress)) }
{
    let Progress { done, state } = progress;
    if factor(x, &state.standing.as_slice()[done]) == 0 {
        return Ok(Progress {
            done: done + 1,
            state,
        });
    }
    replaced_next(alloc, x, p, Progress { done, state })
}

/// By the equation `p`, each row with `x` becomes one without, in its place. The rows without it are not touched.
pub(crate) fn solved(alloc: Global, x: u64, p: &Standing, rows: State) -> Result<State, Halt>
    ensures { Ends result (solved x p.now rows.standing (record { standing = []; steps = rows.steps; last = rows.last })) }
{
    let mut progress = Progress {
        done: 0,
        state: rows,
    };
    while progress.done < progress.state.standing.len() {
        progress = solved_next(alloc, x, p, progress)?;
    }
    Ok(progress.state)
}
