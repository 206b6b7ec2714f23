//! Tasks that a clause makes.
ghost use Rattle.std.specs.Prelude.{◌≡◌, ◌∷◌, IfOk, map};
ghost use Rattle.scasp_search_rules.specs.Successors.Calls.{head_args};
ghost use Rattle.scasp_search_rules.specs.Successors.Cases.{failing_at};
ghost use Rattle.scasp_search_rules.specs.Successors.Equations.{equations};
ghost use Rattle.scasp_search_rules.specs.Successors.Items.{body_of};
ghost use Rattle.scasp_search_rules.specs.Successors.Pairs.{pairs};
ghost use Rattle.scasp_search_rules.specs.declared.states.state.State.{State as ThisState};
ghost use Rattle.scasp_search_state.specs.Choices.{TakesTask};

use scasp_list::Memory;
use scasp_search_calls::{body_of, failing_at, head_args, push_shows, split_first};
use scasp_search_constraints::equations;
use scasp_search_rules::{Aim, State, Task, Tasks};
use scasp_search_terms::pairs::pairs;
use scasp_syntax::{FlatItems, Program, Terms};
use std::alloc::Global;
use std::mem;

/// The tasks with one more before them.
pub(crate) fn with_task(task: Task, tasks: Tasks) -> Result<Tasks, Memory>
    ensures { IfOk result (λ all. all ≡ task ∷ tasks) }
{
    let mut all = tasks.into_vec();
    all.insert(0, task)?;
    Ok(Tasks::from(all))
}

// ---- bodies

fn shows(alloc: Global, items: FlatItems) -> Result<Tasks, Memory>
    ensures { IfOk result (λ tasks. tasks ≡ map Task.Show items) }
{
    let mut tasks = Tasks::new(alloc);
    push_shows(items, &mut tasks)?;
    Ok(tasks)
}

/// The items of the flat body of a clause, with its variables from `first` on.
pub(crate) fn body_tasks(
    alloc: Global,
    program: &Program,
    clause: u64,
    first: u64,
) -> Result<Tasks, Memory>
    ensures { IfOk result (λ tasks. tasks ≡ map Task.Show (body_of program.now clause first)) }
{
    shows(alloc, body_of(alloc, program, clause, first)?)
}

/// The items before that at the place, and that one false; all of them where they are no more.
#[tactic(auto, using(crate::proofs::TaskLemmas::failing_past))]
fn up_to(alloc: Global, items: FlatItems, place: u64) -> Result<FlatItems, Memory>
    ensures { IfOk result (λ made. made ≡ failing_at place items) }
{
    let at = place as usize;
    if at < items.len() {
        failing_at(alloc, items.as_slice(), at)
    } else {
        Ok(items)
    }
}

/// The items of the flat body of a clause before that at the place, and that one false.
pub(crate) fn failing_tasks(
    alloc: Global,
    program: &Program,
    clause: u64,
    first: u64,
    place: u64,
) -> Result<Tasks, Memory>
    ensures { IfOk result (λ tasks. tasks ≡ map Task.Show (failing_at place (body_of program.now clause first))) }
{
    let body = body_of(alloc, program, clause, first)?;
    shows(alloc, up_to(alloc, body, place)?)
}

// ---- heads

/// The equations of the terms with the arguments of the head of a clause.
pub(crate) fn head_equations(
    alloc: Global,
    args: &Terms,
    program: &Program,
    clause: u64,
    first: u64,
) -> Result<Tasks, Memory>
    ensures { IfOk result (λ tasks. tasks ≡ equations args.now (head_args program.now clause first)) }
{
    let head = head_args(alloc, program, clause, first)?;
    equations(alloc, args, &head)
}

/// That the terms are to differ from the arguments of the head of a rule.
pub(crate) fn apart_task(
    alloc: Global,
    args: &Terms,
    program: &Program,
    rule: u64,
    first: u64,
) -> Result<Task, Memory>
    ensures { IfOk result (λ task. task ≡ Task.Differ (pairs args.now (head_args program.now rule first)) (Aim.Head rule first)) }
{
    let head = head_args(alloc, program, rule, first)?;
    Ok(Task::Differ(pairs(alloc, args, &head)?, Aim::Head { rule, first }))
}

// ---- the first task

/// Takes the first task from the state's work, if there is one.
#[tactic(auto, using(crate::proofs::TaskLemmas::none_taken, crate::proofs::TaskLemmas::first_taken))]
pub(crate) fn take_task(alloc: Global, state: &mut State) -> Option<Task>
    ensures { TakesTask state.old state.old.work state.new result }
{
    let work = mem::replace(&mut state.work, Tasks::new(alloc));
    match split_first(work) {
        Some((task, rest)) => {
            state.work = rest;
            Some(task)
        }
        None => None,
    }
}
