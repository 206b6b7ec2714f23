//! A remainder that is taken up at the end of a case.
ghost use Rattle.std.specs.Prelude.{◌≡◌, ◌++◌, ◌∷◌, [], ◌+◌, IfOk};
ghost use Rattle.scasp_search_calls.specs.Cases.Inside.Innermost.{resumed};
ghost use Rattle.scasp_search_rules.specs.Successors.Cases.{remaining, replaced_now};

use crate::cases::kept::ended_by;
use crate::cases::lists::with_first;
use scasp_list::Memory;
use scasp_search_rules::{Cover, Lines, Remainder, Remainders, State};
use scasp_search_terms::reading::read_term;
use scasp_unify::Binding;
use std::alloc::Global;
use std::mem;

/// The bindings, and behind them the replacement, as it reads in the state.
fn with_replaced(alloc: Global, state: State, equation: &Option<Binding>) -> Result<State, Memory>
    ensures { IfOk result (λ made. made ≡ record state { bound = state.bound ++ replaced_now state equation.now }) }
{
    let Some(binding) = equation else {
        return Ok(state);
    };
    let mut state = state;
    let term = read_term(alloc, &binding.term, state.bound.as_slice())?;
    state.bound.push(Binding { x: binding.x, term })?;
    Ok(state)
}

/// The state in which the cover is innermost and its case begins.
fn begun_again(alloc: Global, state: State, cover: Cover) -> Result<State, Memory>
    ensures { IfOk result (λ made. made ≡ record state { covers = cover ∷ state.covers; cases = state.cases + 1; lines = [] }) }
{
    let mut state = state;
    state.covers = with_first(alloc, cover, state.covers)?;
    state.cases = state.cases.checked_add(1).ok_or(Memory)?;
    state.lines = Lines::new(alloc);
    Ok(state)
}

/// The cover whose case is the remainder, with these lines before it.
fn remaining(
    cover: Cover,
    remainder: Remainder,
    waiting: Remainders,
    case: u64,
    lines: Lines,
) -> Cover
    ensures { result ≡ remaining cover remainder waiting case lines }
{
    let Remainder {
        region,
        universals,
        replaced: _,
        equation: _,
    } = remainder;
    let mut cover = cover;
    cover.case = case;
    cover.universals = universals;
    cover.region = region;
    cover.waiting = waiting;
    cover.before = lines;
    cover
}

/// The state in which the remainder is the case of its cover, before whose ended case these lines stood.
pub fn taken_up(
    alloc: Global,
    state: State,
    cover: Cover,
    lines: Lines,
    remainder: Remainder,
    waiting: Remainders,
) -> Result<State, Memory>
    ensures { IfOk result (λ made. made ≡ resumed state cover lines remainder waiting) }
{
    let universals = cover.universals.as_slice();
    let but = remainder.replaced.as_slice();
    let state = ended_by(alloc, state, universals, lines, but)?;
    let mut state = with_replaced(alloc, state, &remainder.equation)?;
    let told = mem::replace(&mut state.lines, Lines::new(alloc));
    let cover = remaining(cover, remainder, waiting, state.cases, told);
    begun_again(alloc, state, cover)
}
