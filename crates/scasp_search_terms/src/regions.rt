//! What holds in a state, and what is left to do in it.
ghost use Rattle.std.specs.Prelude.{◌≡◌, ◌++◌, IfOk, OnOk};
ghost use Rattle.scasp_search_rules.specs.Successors.Regions.{before, regions};

use scasp_list::Memory;
use scasp_search_rules::{Cover, State, Task, Tasks};
use scasp_syntax::{Con, Cons, DeepCopy};
use std::alloc::Global;

fn joined(first: Tasks, rest: Vec<Task>) -> Result<Tasks, Memory>
    ensures { IfOk result (λ all. all ≡ first ++ rest.items) }
{
    let mut all = first;
    for task in rest {
        all.push(task)?;
    }
    Ok(all)
}

/// The state with these tasks first.
pub fn before(tasks: Tasks, state: State) -> Result<State, Memory>
    ensures { IfOk result (λ more. more ≡ before tasks state) }
{
    let State {
        made,
        bound,
        given,
        covers,
        cases,
        literals,
        lines,
        work,
    } = state;
    let work = joined(tasks, work.into_vec())?;
    Ok(State {
        made,
        bound,
        given,
        covers,
        cases,
        literals,
        lines,
        work,
    })
}

// ---- lists that are asked

/// Puts copies of constraints behind those of a list.
pub fn push_copies(alloc: Global, constraints: &[Con], list: &mut Cons) -> Result<(), Memory>
    ensures { OnOk result (list.new ≡ list.old ++ constraints.now) }
{
    for constraint in constraints {
        list.push(constraint.copy(alloc)?)?;
    }
    Ok(())
}

/// Puts the constraints of the regions of covers behind those of a list, the outermost first.
pub fn push_regions(alloc: Global, covers: &[Cover], list: &mut Cons) -> Result<(), Memory>
    ensures { OnOk result (list.new ≡ list.old ++ regions covers.now) }
{
    let mut place = covers.len();
    while place > 0 {
        place -= 1;
        push_copies(alloc, covers[place].region.as_slice(), list)?;
    }
    Ok(())
}
