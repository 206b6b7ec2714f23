//! Frames in a list, of which the next one is the last.
ghost use Rattle.std.specs.Prelude.{◌≡◌, ◌∷◌, ◌++◌, IfOk, OnOk, OnErr, map};
ghost use Rattle.scasp_frames.specs.Inside.Kept.{rest_left, work_of};
ghost use Rattle.scasp_frames.specs.Inside.Taken.{Takes};
ghost use Rattle.scasp_search_rules.specs.Successors.Replacing.{closes};
ghost use Rattle.scasp_search_rules.specs.Successors.Search.{pays_for, waits};
ghost use Rattle.scasp_search_rules.specs.declared.states.state.State.{State};
ghost use Rattle.scasp_search_state.specs.Words.{has_work};

use crate::frame::{Frame, Taken};
use crate::rest::Rest;
use scasp_list::Memory;
use scasp_search_rules::{Task, Tasks};
use scasp_trail::Trailed;
use std::alloc::Global;

/// Whether there is a task.
#[tactic(auto, using(crate::proofs::WorkLemmas::some_next, crate::proofs::WorkLemmas::none_next))]
pub(crate) fn has_next(frames: &[Frame]) -> bool
    ensures { result ≡ has_work (work_of frames.now) }
{
    match frames.split_last() {
        Some(_) => true,
        None => false,
    }
}

/// Whether the next task costs a call, where a remainder of the innermost cover waits or not.
#[tactic(auto, using(crate::proofs::WorkLemmas::next_costs, crate::proofs::WorkLemmas::none_costs))]
pub(crate) fn next_pays(frames: &[Frame], is_waiting: bool) -> bool
    ensures { (s : State) → waits s.covers ≡ is_waiting → result ≡ pays_for s (work_of frames.now) }
{
    match frames.split_last() {
        Some((next, _)) => next.costs(is_waiting),
        None => false,
    }
}

/// Whether the next task ends a case.
#[tactic(auto, using(crate::proofs::WorkLemmas::next_closes, crate::proofs::WorkLemmas::none_closes))]
pub(crate) fn next_closes(frames: &[Frame]) -> bool
    ensures { result ≡ closes (work_of frames.now) }
{
    match frames.split_last() {
        Some((next, _)) => next.closes(),
        None => false,
    }
}

/// Copies of the tasks, the next one first.
#[tactic(auto, using(crate::proofs::WorkLemmas::work_by_last))]
pub(crate) fn copies(alloc: Global, frames: &[Frame]) -> Result<Tasks, Memory>
    ensures { IfOk result (λ made. made ≡ work_of frames.now) }
{
    let mut made = Tasks::new(alloc);
    let mut rest = frames;
    'frames: while let Some((next, before)) = rest.split_last() {
        next.push_copies(alloc, &mut made)?;
        rest = before;
    }
    Ok(made)
}

/// Puts the task before all others.
#[tactic(auto, using(crate::proofs::WorkLemmas::work_with))]
pub(crate) fn put(frames: &mut Trailed<Frame>, task: Task) -> Result<(), Memory>
    ensures now { OnOk result (work_of frames.new.now ≡ task ∷ work_of frames.old.now) }
    ensures before { frames.new.before ≡ frames.old.before }
    ensures unchanged { OnErr result (frames.new ≡ frames.old) }
{
    frames.push(Frame::Task(task))
}

/// Puts the tasks before all others.
pub(crate) fn put_all(frames: &mut Trailed<Frame>, tasks: Tasks) -> Result<(), Memory>
    ensures now { OnOk result (work_of frames.new.now ≡ tasks ++ work_of frames.old.now) }
    ensures before { frames.new.before ≡ frames.old.before }
{
    let mut left = tasks.into_vec();
    'tasks: while let Some(task) = left.pop() {
        put(frames, task)?;
    }
    Ok(())
}

/// Puts what is left of a body before all others.
#[tactic(auto, using(crate::proofs::WorkLemmas::work_with))]
pub(crate) fn put_rest(frames: &mut Trailed<Frame>, rest: Option<Rest>) -> Result<(), Memory>
    ensures now { OnOk result (work_of frames.new.now ≡ map Task.Show (rest_left rest) ++ work_of frames.old.now) }
    ensures before { frames.new.before ≡ frames.old.before }
{
    match rest {
        Some(rest) => frames.push(Frame::Rest(rest)),
        None => Ok(()),
    }
}

/// Takes the next task away, if there is one. It is copied, since a mark may keep it.
#[tactic(auto, using(crate::proofs::WorkLemmas::next_taken, crate::proofs::WorkLemmas::none_taken))]
pub(crate) fn take_next(alloc: Global, frames: &mut Trailed<Frame>) -> Result<Option<Task>, Memory>
    ensures taken { IfOk result (λ task. Takes (work_of frames.old.now) (work_of frames.new.now) task) }
    ensures before { frames.new.before ≡ frames.old.before }
{
    let Some((next, _)) = frames.as_slice().split_last() else {
        return Ok(None);
    };
    let Taken { task, left } = next.taken(alloc)?;
    frames.pop()?;
    put_rest(frames, left)?;
    Ok(Some(task))
}
