//! Lists that fail by one or two of their constraints, so that the others need not be read.
ghost use Rattle.std.specs.Prelude.{◌≡◌, ◌<◌, ◌++◌, IfOk, MatchOption, Some, false, length, slice_get, true, ⊤};
ghost use Rattle.scasp_hint.specs.Satisfying.{sat};
ghost use Rattle.scasp_law_parts.specs.Bound.{Triangular, equations};
ghost use Rattle.scasp_store.specs.Inside.Failing.{AreContrary, Denies, HasFalse, IsFalse, Tells, has_numbers, is_constant};
ghost use Rattle.scasp_unify.specs.Solving.{sub_of};

use crate::asking::{are_numbers, is_readable, note_row};
use scasp_bound::Bound;
use scasp_list::Memory;
use scasp_readings::read_con;
use scasp_search_terms::forms::holds_always;
use scasp_syntax::Con;
use std::alloc::Global;

// ---- a number test and its denial

/// The constraint at the place.
fn con_at(list: &[Con], at: usize) -> &Con
    requires { at < length list.now }
    ensures { Some result.now ≡ slice_get list.now at }
{
    &list[at]
}

/// The variable of which the constraint at the place says that it is no number, if there is one.
#[tactic(auto, using(crate::proofs::FailLemmas::denies_at))]
fn denied_at(bound: &Bound, list: &[Con], at: usize) -> Option<u64>
    requires { at < length list.now }
    ensures { MatchOption result ⊤ (λ x. Denies (sub_of bound.now.now) x list.now) }
{
    match con_at(list, at) {
        Con::NotNum(term) => bound.variable_of(term),
        Con::Row(_) | Con::Eq(_, _) | Con::Neq(_, _) | Con::NotShape(_, _, _) | Con::Num(_) => None,
    }
}

/// A variable of which the list says that it is no number, if there is one.
fn denied_by(bound: &Bound, list: &[Con]) -> Option<u64>
    ensures { MatchOption result ⊤ (λ x. Denies (sub_of bound.now.now) x list.now) }
{
    let mut at = 0;
    while at < list.len() {
        if let Some(x) = denied_at(bound, list, at) {
            return Some(x);
        }
        at += 1;
    }
    None
}

/// Whether the constraint at the place says of the variable that it is a number.
#[tactic(auto, using(crate::proofs::FailLemmas::tells_at))]
fn tells_at(bound: &Bound, list: &[Con], at: usize, x: u64) -> bool
    requires { at < length list.now }
    ensures { result ≡ true → Tells (sub_of bound.now.now) x list.now }
{
    match con_at(list, at) {
        Con::Num(term) => match bound.variable_of(term) {
            Some(y) => y == x,
            None => false,
        },
        Con::Row(_) | Con::Eq(_, _) | Con::Neq(_, _) | Con::NotShape(_, _, _) | Con::NotNum(_) => {
            false
        }
    }
}

/// Whether one of the constraints at the places says of the variable that it is a number.
pub(crate) fn tells(bound: &Bound, given: &[Con], places: &[usize], x: u64) -> bool
    ensures { result ≡ true → Tells (sub_of bound.now.now) x given.now }
{
    for place in places {
        let at = *place;
        if at < given.len() && tells_at(bound, given, at, x) {
            return true;
        }
    }
    false
}

/// Whether a constraint at the places says of a variable that it is a number, and one that is asked that it is none.
#[tactic(auto, using(crate::proofs::FailLemmas::contrary))]
fn are_contrary(bound: &Bound, given: &[Con], places: &[usize], more: &[Con]) -> bool
    ensures { result ≡ true → AreContrary (sub_of bound.now.now) given.now more.now }
{
    match denied_by(bound, more) {
        Some(x) => tells(bound, given, places, x),
        None => false,
    }
}

// ---- a row that is false

/// Whether it is a row and each of its variables stands for a number.
fn has_numbers(alloc: Global, bound: &Bound, constraint: &Con) -> Result<bool, Memory>
    ensures { IfOk result (λ answer. answer ≡ has_numbers (sub_of bound.now.now) constraint.now) }
{
    match constraint {
        Con::Row(row) => are_numbers(alloc, bound, row.coeffs().as_slice()),
        Con::Eq(_, _) | Con::Neq(_, _) | Con::NotShape(_, _, _) | Con::Num(_) | Con::NotNum(_) => {
            Ok(false)
        }
    }
}

/// Whether it is a row without variables.
fn is_constant(constraint: &Con) -> bool
    ensures { result ≡ is_constant constraint.now }
{
    match constraint {
        Con::Row(row) => row.coeffs().as_slice().is_empty(),
        Con::Eq(_, _) | Con::Neq(_, _) | Con::NotShape(_, _, _) | Con::Num(_) | Con::NotNum(_) => {
            false
        }
    }
}

/// Whether it is a row that is false of the numbers that its variables stand for.
fn is_false(alloc: Global, bound: &Bound, constraint: &Con) -> Result<bool, Memory>
    ensures { Triangular bound.now.now → IfOk result (λ answer. answer ≡ true → IsFalse (sub_of bound.now.now) constraint.now) }
{
    note_row(constraint);
    if !has_numbers(alloc, bound, constraint)? {
        return Ok(false);
    }
    if !is_readable(alloc, bound, constraint)? {
        return Ok(false);
    }
    let read = read_con(alloc, bound, constraint)?;
    if !is_constant(&read) {
        return Ok(false);
    }
    Ok(!holds_always(alloc, &read)?)
}

/// Whether the constraint at the place is false; where there is none, it is not.
#[tactic(auto, using(crate::proofs::FailLemmas::false_at))]
fn is_false_at(alloc: Global, bound: &Bound, given: &[Con], place: usize) -> Result<bool, Memory>
    ensures { Triangular bound.now.now → IfOk result (λ answer. answer ≡ true → HasFalse (sub_of bound.now.now) given.now) }
{
    match given.get(place) {
        Some(constraint) => {
            let answer = is_false(alloc, bound, constraint)?;
            Ok(answer)
        }
        None => Ok(false),
    }
}

/// Whether one of the constraints at the places is false.
fn has_false(alloc: Global, bound: &Bound, given: &[Con], places: &[usize]) -> Result<bool, Memory>
    ensures { Triangular bound.now.now → IfOk result (λ answer. answer ≡ true → HasFalse (sub_of bound.now.now) given.now) }
{
    for place in places {
        if is_false_at(alloc, bound, given, *place)? {
            return Ok(true);
        }
    }
    Ok(false)
}

// ---- the question

/// Whether the bindings and constraints have no valuation by one or two of the given constraints at these places and those
/// that are asked.
#[tactic(auto, using(crate::proofs::FailLemmas::contrary_fails, crate::proofs::FailLemmas::false_fails))]
pub(crate) fn fails(
    alloc: Global,
    bound: &Bound,
    given: &[Con],
    places: &[usize],
    more: &[Con],
) -> Result<bool, Memory>
    ensures { Triangular bound.now.now → IfOk result (λ answer. answer ≡ true → sat (equations bound.now.now ++ (given.now ++ more.now)) ≡ false) }
{
    if are_contrary(bound, given, places, more) {
        return Ok(true);
    }
    let is_false = has_false(alloc, bound, given, places)?;
    Ok(is_false)
}
