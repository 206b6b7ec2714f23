//! Marks of literals that positive loops lead out of, and the end of a literal.
ghost use Rattle.std.specs.Prelude.{◌≡◌, ◌∷◌, [], IfOk};
ghost use Rattle.scasp_search_calls.specs.Calls.Inside.Open.{done_by, marked_by, open_among, positive_number};
ghost use Rattle.scasp_search_rules.specs.Successors.Calls.{at_number, finished, leave_literal, looping};
ghost use Rattle.scasp_search_state.specs.Words.{first_number};

use crate::calls::repeated::last_open;
use scasp_list::Memory;
use scasp_search_rules::{Literal, Literals, State};
use std::alloc::Global;

/// The literals, of which that with this number loops.
fn looping(alloc: Global, literals: Literals, number: u64) -> Result<Literals, Memory>
    ensures { IfOk result (λ made. made ≡ at_number number looping literals) }
{
    let mut made = Literals::new(alloc);
    for literal in literals.into_vec() {
        made.push(looping_at(literal, number))?;
    }
    Ok(made)
}

fn looping_at(literal: Literal, number: u64) -> Literal
    ensures { result ∷ [] ≡ at_number number looping (literal ∷ []) }
{
    let mut literal = literal;
    if literal.number == number {
        literal.loops = true;
    }
    literal
}

/// The literals, of which that with this number is done.
fn finished(alloc: Global, literals: Literals, number: u64) -> Result<Literals, Memory>
    ensures { IfOk result (λ made. made ≡ at_number number finished literals) }
{
    let mut made = Literals::new(alloc);
    for literal in literals.into_vec() {
        made.push(finished_at(literal, number))?;
    }
    Ok(made)
}

fn finished_at(literal: Literal, number: u64) -> Literal
    ensures { result ∷ [] ≡ at_number number finished (literal ∷ []) }
{
    let mut literal = literal;
    if literal.number == number {
        literal.is_done = true;
    }
    literal
}

/// The state in which a positive loop leads out of the literal of this number.
pub fn marked_by(alloc: Global, number: Option<u64>, state: State) -> Result<State, Memory>
    ensures { IfOk result (λ made. made ≡ marked_by number state) }
{
    let Some(number) = number else {
        return Ok(state);
    };
    let mut state = state;
    state.literals = looping(alloc, state.literals, number)?;
    Ok(state)
}

fn done_by(alloc: Global, number: u64, state: State) -> Result<State, Memory>
    ensures { IfOk result (λ made. made ≡ done_by number state) }
{
    let mut state = state;
    state.literals = finished(alloc, state.literals, number)?;
    Ok(state)
}

/// The number of the innermost literal that is open.
pub fn first_number(literals: &[Literal]) -> Option<u64>
    ensures { result ≡ first_number (open_among literals.now) }
{
    match last_open(literals) {
        Some((literal, _)) => Some(literal.number),
        None => None,
    }
}

/// The number of the innermost literal that is open, where it is positive.
fn positive_number(literals: &[Literal]) -> Option<u64>
    ensures { result ≡ positive_number (open_among literals.now) }
{
    match last_open(literals) {
        Some((literal, _)) => {
            if literal.lit.positive {
                Some(literal.number)
            } else {
                None
            }
        }
        None => None,
    }
}

/// The state in which the innermost literal is done. A mark moves on from a positive literal to a positive one around it.
#[tactic(auto, using(crate::proofs::CallsLemmas::OpenLemmas::left_first))]
pub fn leave_literal(alloc: Global, state: State) -> Result<State, Memory>
    ensures { IfOk result (λ made. made ≡ leave_literal state) }
{
    let Some((last, before)) = last_open(state.literals.as_slice()) else {
        return Ok(state);
    };
    let number = last.number;
    let mark = if last.loops && last.lit.positive {
        positive_number(before)
    } else {
        None
    };
    marked_by(alloc, mark, done_by(alloc, number, state)?)
}
