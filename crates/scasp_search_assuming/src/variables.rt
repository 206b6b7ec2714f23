//! Two variables that are to be equal, and a variable and a number.
ghost use Rattle.std.specs.Prelude.{◌≡◌, ◌&&◌, IfOk, nat_le, not};
ghost use Rattle.scasp_hint.specs.Satisfying.{sat};
ghost use Rattle.scasp_search_rules.specs.Successors.Equations.{becomes_number, is_inside, mixed, two_existentials, two_universals, two_variables, variable_number};
ghost use Rattle.scasp_search_rules.specs.Successors.Regions.{is_constrained};
ghost use Rattle.scasp_search_rules.specs.Successors.Variables.{depth_of, is_universal};
ghost use Rattle.scasp_search_state.specs.Going.{Goes};

use crate::assumptions::assume;
use crate::bindings::{bind, bound_to};
use crate::replacements::replaced_if;
use scasp_list::Memory;
use scasp_num::Rat;
use scasp_search_constraints::SearchErr;
use scasp_search_state::Situation;
use scasp_syntax::{Con, Term};
use std::alloc::Global;

// ---- two variables

/// Of two existential variables the later is bound to the earlier, which gets the lesser depth.
fn two_existentials<M: Situation>(
    alloc: Global,
    at: &mut M,
    x: u64,
    y: u64,
) -> Result<bool, SearchErr>
    ensures now { Goes result (two_existentials sat (M.now at.old) x y) (M.now at.new) }
    ensures points { IfOk result (λ _. M.points at.new ≡ M.points at.old) }
{
    bound_to(alloc, at, x.max(y), Term::Var(x.min(y)))
}

/// Whether the first variable is of greater depth, or of the same depth and later.
pub(crate) fn is_inside<M: Situation>(at: &M, x: u64, y: u64) -> bool
    ensures { result ≡ is_inside (M.now at.now) x y }
{
    let depth = at.depth_of(x);
    let other = at.depth_of(y);
    other < depth || (depth == other && y < x)
}

/// Of two universal variables the inner is replaced by the other.
fn two_universals<M: Situation>(
    alloc: Global,
    at: &mut M,
    x: u64,
    y: u64,
) -> Result<bool, SearchErr>
    ensures now { Goes result (two_universals sat (M.now at.old) x y) (M.now at.new) }
    ensures points { IfOk result (λ _. M.points at.new ≡ M.points at.old) }
{
    if is_inside(at, x, y) {
        replaced_if(alloc, at, x, &Term::Var(y))
    } else {
        replaced_if(alloc, at, y, &Term::Var(x))
    }
}

/// Whether the existential variable can be bound to the universal one: it stands in no constraint, and is of its depth
/// or deeper.
fn may_depend<M: Situation>(alloc: Global, at: &M, e: u64, u: u64) -> Result<bool, Memory>
    ensures { IfOk result (λ may. may ≡ nat_le (depth_of (M.now at.now) u) (depth_of (M.now at.now) e) && not (is_constrained (M.now at.now) e)) }
{
    if at.depth_of(u) <= at.depth_of(e) {
        Ok(!at.is_constrained(alloc, e)?)
    } else {
        Ok(false)
    }
}

/// An existential variable is bound to a universal one where it may depend on it; else the universal one is replaced.
fn mixed<M: Situation>(alloc: Global, at: &mut M, e: u64, u: u64) -> Result<bool, SearchErr>
    ensures now { Goes result (mixed sat (M.now at.old) e u) (M.now at.new) }
    ensures points { IfOk result (λ _. M.points at.new ≡ M.points at.old) }
{
    if may_depend(alloc, at, e, u)? {
        bind(alloc, at, e, Term::Var(u))?;
        Ok(true)
    } else {
        replaced_if(alloc, at, u, &Term::Var(e))
    }
}

/// Whether there is a state in which two variables are equal.
pub(crate) fn two_variables<M: Situation>(
    alloc: Global,
    at: &mut M,
    x: u64,
    y: u64,
) -> Result<bool, SearchErr>
    ensures now { Goes result (two_variables sat (M.now at.old) x y (is_universal (M.now at.old) x) (is_universal (M.now at.old) y)) (M.now at.new) }
    ensures points { IfOk result (λ _. M.points at.new ≡ M.points at.old) }
{
    match (at.is_universal(x), at.is_universal(y)) {
        (false, false) => two_existentials(alloc, at, x, y),
        (false, true) => mixed(alloc, at, x, y),
        (true, false) => mixed(alloc, at, y, x),
        (true, true) => two_universals(alloc, at, x, y),
    }
}

// ---- a variable and a number

/// The variable becomes the number.
fn becomes_number<M: Situation>(
    alloc: Global,
    at: &mut M,
    x: u64,
    value: Rat,
) -> Result<bool, SearchErr>
    ensures now { Goes result (becomes_number sat x value (M.now at.old)) (M.now at.new) }
    ensures points { IfOk result (λ _. M.points at.new ≡ M.points at.old) }
{
    if at.is_universal(x) {
        replaced_if(alloc, at, x, &Term::Num(value))
    } else {
        bound_to(alloc, at, x, Term::Num(value))
    }
}

/// Whether there is a state in which a variable and a number are equal: the variable is a number, and becomes this one.
pub(crate) fn variable_number<M: Situation>(
    alloc: Global,
    at: &mut M,
    x: u64,
    value: Rat,
) -> Result<bool, SearchErr>
    ensures now { Goes result (variable_number sat (M.now at.old) x value) (M.now at.new) }
    ensures points { IfOk result (λ _. M.points at.new ≡ M.points at.old) }
{
    if !assume(alloc, at, &Con::Num(Term::Var(x)))? {
        return Ok(false);
    }
    becomes_number(alloc, at, x, value)
}
