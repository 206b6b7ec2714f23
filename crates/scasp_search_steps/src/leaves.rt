//! The alternatives of a case.
ghost use Rattle.std.specs.Prelude.{◌≡◌, ◌+◌, ◌++◌, ◌∷◌, [], IfOk, OnOk, if◌then◌else◌, length, map};
ghost use Rattle.scasp_search_rules.specs.Successors.Cases.{head_call, leaf_at};
ghost use Rattle.scasp_search_rules.specs.Successors.Items.{body_of};
ghost use Rattle.scasp_search_state.specs.Choices.{Forked, left};
ghost use Rattle.scasp_search_steps.specs.Leaves.{head_leaf, heads, leaf};
ghost use Rattle.scasp_syntax.specs.Programs.{numbered};

use crate::clauses::body_length;
use scasp_list::Memory;
use scasp_search_calls::{head_call, push_shows};
use scasp_search_rules::{Line, Task, Tasks};
use scasp_search_state::{Begun, Choice, Situation};
use scasp_syntax::Program;
use std::alloc::Global;

/// Whether the head of the clause is called in the last leaf of a case.
fn calls_head(program: &Program, begun: Begun) -> bool
    ensures { heads program.now begun ≡ (if result then 1 else 0) }
{
    if !begun.checks_head {
        return false;
    }
    match program.clause(begun.clause) {
        Some(found) => found.head.is_some(),
        None => false,
    }
}

/// How many leaves a case of the clause has, of whose body there are so many items.
fn leaf_count(program: &Program, begun: Begun, items: u64) -> Result<u64, Memory>
    ensures { IfOk result (λ count. count ≡ items + heads program.now begun) }
{
    if calls_head(program, begun) {
        items.checked_add(1).ok_or(Memory)
    } else {
        Ok(items)
    }
}

/// The leaf in which the item of the body at the place is false.
#[tactic(auto, using(crate::proofs::ForkLemmas::before_both))]
fn fail_item<M: Situation>(
    alloc: Global,
    program: &Program,
    at: &mut M,
    begun: Begun,
    place: u64,
) -> Result<(), Memory>
    ensures now { OnOk result (M.now at.new ≡ leaf_at (M.now at.old) (body_of program.now begun.clause begun.first) place) }
    ensures points { OnOk result (M.points at.new ≡ M.points at.old) }
{
    let number = place.checked_add(1).ok_or(Memory)?;
    at.tell(Line::Leaf(number))?;
    at.put(Task::Close)?;
    at.put_failing(alloc, program, begun.clause, begun.first, place)
}

/// What is to be done behind the items of the body where the head of the clause is called.
fn head_tasks(alloc: Global, program: &Program, begun: Begun) -> Result<Tasks, Memory>
    ensures { IfOk result (λ tasks. tasks ≡ map Task.Show (head_call (numbered program.now.clauses begun.clause) begun.first) ++ Task.Close ∷ []) }
{
    let mut tasks = Tasks::new(alloc);
    let call = head_call(alloc, program, begun.clause, begun.first)?;
    push_shows(call, &mut tasks)?;
    tasks.push(Task::Close)?;
    Ok(tasks)
}

/// The leaf in which the items of the body are true, of which there are so many, and the head of the clause is called.
#[tactic(auto, using(crate::proofs::LeafLemmas::head_put))]
fn call_head<M: Situation>(
    alloc: Global,
    program: &Program,
    at: &mut M,
    begun: Begun,
    items: u64,
) -> Result<(), Memory>
    requires { items ≡ length (body_of program.now begun.clause begun.first) }
    ensures now { OnOk result (M.now at.new ≡ head_leaf program.now (M.now at.old) begun) }
    ensures points { OnOk result (M.points at.new ≡ M.points at.old) }
{
    let number = items.checked_add(1).ok_or(Memory)?;
    let tasks = head_tasks(alloc, program, begun)?;
    at.tell(Line::Head(number))?;
    at.put_all(tasks)?;
    at.put_body(alloc, program, begun.clause, begun.first)
}

/// The leaf of this number.
fn begin_leaf<M: Situation>(
    alloc: Global,
    program: &Program,
    at: &mut M,
    begun: Begun,
    items: u64,
    place: u64,
) -> Result<(), Memory>
    requires { items ≡ length (body_of program.now begun.clause begun.first) }
    ensures now { OnOk result (M.now at.new ≡ leaf program.now (M.now at.old) begun place) }
    ensures points { OnOk result (M.points at.new ≡ M.points at.old) }
{
    if place < items {
        fail_item(alloc, program, at, begun, place)
    } else {
        call_head(alloc, program, at, begun, items)
    }
}

/// Whether a leaf of the innermost cover is left to be tried, from this one on; the first one is, and the others wait.
#[tactic(auto, using(crate::proofs::LeafLemmas::no_cover, crate::proofs::LeafLemmas::no_leaf, crate::proofs::LeafLemmas::first_leaf, crate::proofs::LeafLemmas::last_leaf))]
pub fn try_leaves<M: Situation>(
    alloc: Global,
    program: &Program,
    at: &mut M,
    from: u64,
) -> Result<bool, Memory>
    ensures { IfOk result (λ went. Forked program.now (left program.now (Choice.Cases from) (M.now at.old)) (M.now at.new) (M.points at.new) (M.points at.old) went) }
{
    let Some(begun) = at.innermost() else {
        return Ok(false);
    };
    let items = body_length(alloc, program, begun.clause)?;
    let count = leaf_count(program, begun, items)?;
    if from >= count {
        return Ok(false);
    }
    if from + 1 < count {
        at.save(Choice::Cases(from + 1))?;
    }
    begin_leaf(alloc, program, at, begun, items, from)?;
    Ok(true)
}
