//! A copy of the state that the parts are.
ghost use Rattle.std.specs.Prelude.{◌≡◌, ◌≤◌, IfOk, length, reverse, take};
ghost use Rattle.scasp_search_trail.specs.States.{first, lined, others, state_of};

use crate::parts::Parts;
use scasp_list::{Memory, Sequence};
use scasp_search_rules::{Covers, Line, Lines, State};
use scasp_syntax::DeepCopy;
use scasp_told::Told;
use std::alloc::Global;

/// Copies of the items.
fn copies<T: DeepCopy + Drop>(alloc: Global, items: &[T]) -> Result<Sequence<T>, Memory>
    ensures { IfOk result (λ made. made ≡ items.now) }
{
    let mut made = Sequence::new(alloc);
    for item in items {
        made.push(item.copy(alloc)?)?;
    }
    Ok(made)
}

/// The lines of the last of so many pieces.
#[tactic(auto, using(crate::proofs::CopyLemmas::none_taken, crate::proofs::CopyLemmas::first_taken))]
fn lines_of(alloc: Global, told: &Told<Line>, count: usize) -> Result<Lines, Memory>
    requires { count ≤ length told.now.now }
    ensures { IfOk result (λ made. made ≡ first (reverse (take count told.now.now))) }
{
    if count == 0 {
        return Ok(Lines::new(alloc));
    }
    copies(alloc, told.piece(count - 1))
}

/// The covers, the innermost first, with the lines before their cases.
#[tactic(auto, using(crate::proofs::CopyLemmas::lined_begins, crate::proofs::CopyLemmas::lined_more, crate::proofs::CopyLemmas::lined_ends))]
fn with_lines(alloc: Global, covers: Covers, told: &Told<Line>) -> Result<Covers, Memory>
    ensures { IfOk result (λ made. made ≡ lined (reverse covers) (others (reverse told.now.now))) }
{
    let mut made = Covers::new(alloc);
    let mut left = covers.into_vec();
    let mut count = told.count() - 1;
    'covers: while let Some(cover) = left.pop() {
        let mut cover = cover;
        cover.before = lines_of(alloc, told, count)?;
        made.push(cover)?;
        count = count.saturating_sub(1);
    }
    Ok(made)
}

/// A copy of the state.
#[tactic(auto, using(crate::proofs::LineLemmas::last_first))]
pub(crate) fn state_copy(alloc: Global, parts: &Parts) -> Result<State, Memory>
    ensures { IfOk result (λ copied. copied ≡ state_of parts.now) }
{
    Ok(State {
        made: copies(alloc, parts.variables.as_slice())?,
        bound: parts.store.bound().bindings(alloc)?,
        given: copies(alloc, parts.store.given())?,
        covers: with_lines(alloc, parts.scopes.covers(alloc)?, &parts.told)?,
        cases: parts.cases,
        literals: parts.loops.literals(alloc)?,
        lines: copies(alloc, parts.told.last())?,
        work: parts.frames.tasks(alloc)?,
    })
}
