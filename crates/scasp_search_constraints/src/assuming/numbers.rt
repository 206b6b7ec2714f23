//! The tests that variables are numbers.
ghost use Rattle.std.specs.Prelude.{◌≡◌, IfOk, filter, nat_le};
ghost use Rattle.std.specs.List.{list_any, flat_map};
ghost use Rattle.scasp_search_rules.specs.declared.states.covers.Cover.{Cover as ThisCover};
ghost use Rattle.scasp_search_rules.specs.Successors.Splits.{is_number_by, is_number_test};

use scasp_list::Memory;
use scasp_search_rules::{Cover, State};
use scasp_search_terms::reading::read;
use scasp_syntax::{Con, Term};
use std::alloc::Global;

/// Whether the constraint is the test that the variable is a number.
fn is_number_test(alloc: Global, state: &State, x: u64, constraint: &Con) -> Result<bool, Memory>
    ensures { IfOk result (λ is. is ≡ is_number_test state.now x constraint.now) }
{
    match constraint {
        Con::Num(term) => match read(alloc, term, state.bound.as_slice())? {
            Term::Var(y) => Ok(y == x),
            Term::Num(_) | Term::App(_, _) => Ok(false),
        },
        Con::Eq(_, _) | Con::Neq(_, _) | Con::NotShape(_, _, _) | Con::NotNum(_) | Con::Row(_) => {
            Ok(false)
        }
    }
}

/// Whether the test that the variable is a number is among the constraints.
fn has_number_test(
    alloc: Global,
    state: &State,
    x: u64,
    constraints: &[Con],
) -> Result<bool, Memory>
    ensures { IfOk result (λ has. has ≡ list_any (is_number_test state.now x) constraints.now) }
{
    for constraint in constraints {
        if is_number_test(alloc, state, x, constraint)? {
            return Ok(true);
        }
    }
    Ok(false)
}

/// Whether the test that the variable is a number stands in a region of the covers down to this depth.
fn is_number_in(
    alloc: Global,
    state: &State,
    depth: u64,
    x: u64,
    covers: &[Cover],
) -> Result<bool, Memory>
    ensures { IfOk result (λ is. is ≡ list_any (is_number_test state.now x) (flat_map (λ (c : ThisCover). c.region) (filter (λ (c : ThisCover). nat_le c.depth depth) covers.now))) }
{
    for cover in covers {
        if cover.depth <= depth && has_number_test(alloc, state, x, cover.region.as_slice())? {
            return Ok(true);
        }
    }
    Ok(false)
}

/// Whether the test that the variable is a number is given, or stands in a region down to this depth.
pub fn is_number_by(alloc: Global, state: &State, depth: u64, x: u64) -> Result<bool, Memory>
    ensures { IfOk result (λ is. is ≡ is_number_by state.now depth x) }
{
    if has_number_test(alloc, state, x, state.given.as_slice())? {
        return Ok(true);
    }
    is_number_in(alloc, state, depth, x, state.covers.as_slice())
}
