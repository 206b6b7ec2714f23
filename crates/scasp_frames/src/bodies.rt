//! What clauses have to be done for them.
ghost use Rattle.std.specs.Prelude.{◌≡◌, ◌∷◌, ◌++◌, [], IfOk, OnOk, map};
ghost use Rattle.scasp_frames.specs.Inside.Kept.{rest_left, work_of};
ghost use Rattle.scasp_search_rules.specs.Successors.Calls.{head_args};
ghost use Rattle.scasp_search_rules.specs.Successors.Cases.{failing_at};
ghost use Rattle.scasp_search_rules.specs.Successors.Equations.{equations};
ghost use Rattle.scasp_search_rules.specs.Successors.Items.{body_of, item_raised, opposite_item};
ghost use Rattle.scasp_search_rules.specs.Successors.Pairs.{pairs};

use crate::frame::Frame;
use crate::raising::item_raised;
use crate::rest::Rest;
use crate::work::{put_all, put_rest};
use scasp_list::Memory;
use scasp_search_calls::{failing_at, head_args, push_shows};
use scasp_search_constraints::equations;
use scasp_search_rules::{Aim, Task, Tasks};
use scasp_search_terms::pairs::pairs;
use scasp_syntax::{FlatItem, FlatItems, Program, Terms, flat};
use scasp_trail::Trailed;
use std::alloc::Global;

/// The flat body of a clause, if it has an item.
pub(crate) fn body_rest(
    alloc: Global,
    program: &Program,
    clause: u64,
    first: u64,
) -> Result<Option<Rest>, Memory>
    ensures { IfOk result (λ rest. rest_left rest ≡ body_of program.now clause first) }
{
    match program.clause(clause) {
        Some(found) => Rest::of(alloc, flat(alloc, found)?.into_vec(), first),
        None => Ok(None),
    }
}

/// That the item, with its variables from `first` on, is false.
fn false_item(alloc: Global, item: &FlatItem, first: u64) -> Result<Tasks, Memory>
    ensures { IfOk result (λ tasks. tasks ≡ Task.Show (opposite_item (item_raised first item.now)) ∷ []) }
{
    let mut one = FlatItems::new(alloc);
    one.push(item_raised(alloc, first, item)?)?;
    let mut tasks = Tasks::new(alloc);
    push_shows(failing_at(alloc, one.as_slice(), 0)?, &mut tasks)?;
    Ok(tasks)
}

/// Puts the items before the one at the place, and that one false, before all others; all items where they are no more.
fn put_up_to(
    alloc: Global,
    frames: &mut Trailed<Frame>,
    items: Vec<FlatItem>,
    first: u64,
    place: u64,
) -> Result<(), Memory>
    ensures now { OnOk result (work_of frames.new.now ≡ map Task.Show (failing_at place (map (item_raised first) items.items)) ++ work_of frames.old.now) }
    ensures before { frames.new.before ≡ frames.old.before }
{
    let mut before = items;
    let at = place as usize;
    if before.len() <= at {
        put_rest(frames, Rest::of(alloc, before, first)?)?;
        return Ok(());
    }
    put_all(frames, false_item(alloc, &before[at], first)?)?;
    before.truncate(at);
    put_rest(frames, Rest::of(alloc, before, first)?)?;
    Ok(())
}

/// Puts the items of the flat body of a clause before the one at the place, and that one false, before all others.
pub(crate) fn put_failing(
    alloc: Global,
    frames: &mut Trailed<Frame>,
    program: &Program,
    clause: u64,
    first: u64,
    place: u64,
) -> Result<(), Memory>
    ensures now { OnOk result (work_of frames.new.now ≡ map Task.Show (failing_at place (body_of program.now clause first)) ++ work_of frames.old.now) }
    ensures before { frames.new.before ≡ frames.old.before }
{
    match program.clause(clause) {
        Some(found) => {
            let items = flat(alloc, found)?.into_vec();
            put_up_to(alloc, frames, items, first, place)
        }
        None => Ok(()),
    }
}

/// The equations of the terms with the arguments of the head of a clause.
pub(crate) fn head_equations(
    alloc: Global,
    args: &Terms,
    program: &Program,
    clause: u64,
    first: u64,
) -> Result<Tasks, Memory>
    ensures { IfOk result (λ tasks. tasks ≡ equations args.now (head_args program.now clause first)) }
{
    let head = head_args(alloc, program, clause, first)?;
    equations(alloc, args, &head)
}

/// That the terms are to differ from the arguments of the head of a rule.
pub(crate) fn apart_from_head(
    alloc: Global,
    args: &Terms,
    program: &Program,
    rule: u64,
    first: u64,
) -> Result<Task, Memory>
    ensures { IfOk result (λ task. task ≡ Task.Differ (pairs args.now (head_args program.now rule first)) (Aim.Head rule first)) }
{
    let head = head_args(alloc, program, rule, first)?;
    Ok(Task::Differ(pairs(alloc, args, &head)?, Aim::Head { rule, first }))
}
