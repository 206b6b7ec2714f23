//! What becomes of a state where a constraint is assumed.
ghost use Rattle.std.specs.Prelude.{◌≡◌, IfOk, OnOk, not};
ghost use Rattle.scasp_hint.specs.Satisfying.{sat};
ghost use Rattle.scasp_search_rules.specs.Successors.Assumptions.{as_read, assume, assume_all, performed};
ghost use Rattle.scasp_search_rules.specs.Successors.Splits.{split};
ghost use Rattle.scasp_search_rules.specs.Successors.Variables.{is_empty, universals_of};
ghost use Rattle.scasp_search_state.specs.Going.{Goes, Leaves};

use crate::splits::split;
use scasp_list::Memory;
use scasp_search_constraints::SearchErr;
use scasp_search_rules::Status;
use scasp_search_state::Situation;
use scasp_syntax::Con;
use std::alloc::Global;

/// Whether the constraint has a universal variable, as it reads.
pub fn is_general<M: Situation>(alloc: Global, at: &M, constraint: &Con) -> Result<bool, Memory>
    ensures { IfOk result (λ general. general ≡ not (is_empty (universals_of (M.now at.now) constraint.now))) }
{
    let universals = at.universals_of(alloc, constraint)?;
    Ok(!universals.as_slice().is_empty())
}

/// The case is parted by the constraint as it reads.
fn split_as_read<M: Situation>(alloc: Global, at: &mut M, constraint: &Con) -> Result<(), Memory>
    ensures now { OnOk result (M.now at.new ≡ split (M.now at.old) (as_read (M.now at.old) constraint.now)) }
    ensures points { OnOk result (M.points at.new ≡ M.points at.old) }
{
    let read = at.read_simple(alloc, constraint)?;
    split(alloc, at, &read)
}

/// Whether a constraint of this status leaves a state.
fn performed<M: Situation>(
    alloc: Global,
    at: &mut M,
    constraint: &Con,
    status: Status,
) -> Result<bool, Memory>
    ensures now { IfOk result (λ left. Leaves left (performed (M.now at.old) (as_read (M.now at.old) constraint.now) status) (M.now at.new)) }
    ensures points { IfOk result (λ _. M.points at.new ≡ M.points at.old) }
{
    match status {
        Status::Entailed => Ok(true),
        Status::Impossible => Ok(false),
        Status::Added => {
            let read = at.read_simple(alloc, constraint)?;
            at.give(read)?;
            Ok(true)
        }
        Status::Parts => {
            split_as_read(alloc, at, constraint)?;
            Ok(true)
        }
    }
}

/// Whether there is a state in which the constraint is assumed; it is the present one then.
pub fn assume<M: Situation>(alloc: Global, at: &mut M, constraint: &Con) -> Result<bool, SearchErr>
    ensures now { Goes result (assume sat (M.now at.old) constraint.now) (M.now at.new) }
    ensures points { IfOk result (λ _. M.points at.new ≡ M.points at.old) }
{
    let status = at.status(alloc, constraint)?;
    Ok(performed(alloc, at, constraint, status)?)
}

/// Whether there is a state in which the constraints are assumed in order; it is the present one then.
pub fn assume_all<M: Situation>(
    alloc: Global,
    at: &mut M,
    constraints: &[Con],
) -> Result<bool, SearchErr>
    ensures now { Goes result (assume_all sat constraints.now (M.now at.old)) (M.now at.new) }
    ensures points { IfOk result (λ _. M.points at.new ≡ M.points at.old) }
{
    for constraint in constraints {
        if !assume(alloc, at, constraint)? {
            return Ok(false);
        }
    }
    Ok(true)
}
