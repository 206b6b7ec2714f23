//! The alternatives at a part of a disequation.
ghost use Rattle.std.specs.Prelude.{◌≡◌, ◌∷◌, OnOk, true};
ghost use Rattle.scasp_hint.specs.Satisfying.{sat};
ghost use Rattle.scasp_search_rules.specs.Successors.Differences.{alternatives, at_part, when_apart, when_same};
ghost use Rattle.scasp_search_rules.specs.Successors.Regions.{before};
ghost use Rattle.scasp_search_rules.specs.Successors.Steps.{gives};
ghost use Rattle.scasp_search_state.specs.Choices.{Forked, Forks};
ghost use Rattle.scasp_syntax.specs.declared.program.Program.{Program as ThisProgram};

use scasp_list::Memory;
use scasp_search_constraints::SearchErr;
use scasp_search_rules::{Aim, Status, Task, Tasks};
use scasp_search_state::{Choice, Situation};
use scasp_syntax::Con;
use std::alloc::Global;

// ---- terms that are apart, and terms that are the same

/// What is to be done where the terms are apart comes next.
pub(crate) fn when_apart<M: Situation>(at: &mut M, aim: Aim) -> Result<(), Memory>
    ensures now { OnOk result (M.now at.new ≡ before (when_apart aim) (M.now at.old)) }
    ensures points { OnOk result (M.points at.new ≡ M.points at.old) }
{
    match aim {
        Aim::Test => Ok(()),
        Aim::Head { .. } => at.put(Task::Void),
    }
}

/// Whether there is a state in which the terms are the same: a test fails there, and the case of a rule begins.
pub(crate) fn when_same<M: Situation>(at: &mut M, aim: Aim) -> Result<bool, SearchErr>
    ensures { (p : ThisProgram) → Forks p (gives (when_same aim (M.now at.old))) (M.now at.new) (M.points at.new) (M.points at.old) result }
{
    match aim {
        Aim::Test => Ok(false),
        Aim::Head { rule, first } => {
            at.put(Task::Begin {
                clause: rule,
                first,
                checks_head: false,
            })?;
            Ok(true)
        }
    }
}

// ---- the alternatives

/// That a part is apart, which the constraint says, comes next.
fn say_apart<M: Situation>(at: &mut M, constraint: Con, aim: Aim) -> Result<(), Memory>
    ensures now { OnOk result (M.now at.new ≡ before (Task.Assume constraint ∷ when_apart aim) (M.now at.old)) }
    ensures points { OnOk result (M.points at.new ≡ M.points at.old) }
{
    when_apart(at, aim)?;
    at.put(Task::Assume(constraint))
}

/// That the part is apart comes next, and that it is not waits, unless the constraint parted a case.
fn alternatives<M: Situation>(
    at: &mut M,
    constraint: Con,
    aim: Aim,
    other: Tasks,
    status: Status,
) -> Result<(), Memory>
    ensures { OnOk result ((p : ThisProgram) → Forked p (alternatives (M.now at.old) (Task.Assume constraint ∷ when_apart aim) other status) (M.now at.new) (M.points at.new) (M.points at.old) true) }
{
    match status {
        Status::Entailed | Status::Added => {
            at.save(Choice::Other(other))?;
            say_apart(at, constraint, aim)
        }
        Status::Impossible => at.put_all(other),
        Status::Parts => say_apart(at, constraint, aim),
    }
}

/// The alternatives at a part: the constraint says that it is apart, and the other tasks follow where it is not.
pub(crate) fn at_part<M: Situation>(
    alloc: Global,
    at: &mut M,
    constraint: Con,
    aim: Aim,
    other: Tasks,
) -> Result<bool, SearchErr>
    ensures { (p : ThisProgram) → Forks p (at_part sat (M.now at.old) constraint aim other) (M.now at.new) (M.points at.new) (M.points at.old) result }
{
    let status = at.status(alloc, &constraint)?;
    alternatives(at, constraint, aim, other, status)?;
    Ok(true)
}
