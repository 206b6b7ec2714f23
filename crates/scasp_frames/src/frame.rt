//! Frames of work.
ghost use Rattle.std.specs.Prelude.{◌≡◌, ◌∷◌, ◌++◌, IfOk, OnOk, map};
ghost use Rattle.scasp_frames.specs.Inside.Kept.{rest_left, tasks_of};
ghost use Rattle.scasp_search_rules.specs.Successors.Replacing.{closes};
ghost use Rattle.scasp_search_rules.specs.Successors.Search.{pays_for, waits};
ghost use Rattle.scasp_search_rules.specs.declared.states.state.State.{State};

use crate::ahead::{costs, is_call, is_close};
use crate::rest::Rest;
use scasp_list::Memory;
use scasp_search_rules::{Task, Tasks};
use scasp_syntax::DeepCopy;
use std::alloc::Global;

/// Tasks that lie together.
#[derive(Drop)]
pub(crate) enum Frame {
    Task(Task),
    /// What is left of the body of a clause.
    Rest(Rest),
}

/// A task, and what is left of the body that it is an item of.
#[derive(Drop)]
pub(crate) struct Taken {
    pub(crate) task: Task,
    pub(crate) left: Option<Rest>,
}

impl Frame {
    /// Whether the first task costs a call, where a remainder of the innermost cover waits or not.
    #[tactic(auto, using(crate::proofs::FrameLemmas::first_costs))]
    pub(crate) fn costs(&self, is_waiting: bool) -> bool
        ensures { (s : State) → waits s.covers ≡ is_waiting → result ≡ pays_for s (tasks_of self.now) }
    {
        match self {
            Frame::Task(task) => costs(task, is_waiting),
            Frame::Rest(rest) => is_call(rest.item()),
        }
    }

    /// Whether the first task ends a case.
    #[tactic(auto, using(crate::proofs::FrameLemmas::shows_close_nothing))]
    pub(crate) fn closes(&self) -> bool
        ensures { result ≡ closes (tasks_of self.now) }
    {
        match self {
            Frame::Task(task) => is_close(task),
            Frame::Rest(_) => false,
        }
    }

    /// A copy of the first task, and what is left behind it.
    #[tactic(auto, using(crate::proofs::FrameLemmas::first_shown))]
    pub(crate) fn taken(&self, alloc: Global) -> Result<Taken, Memory>
        ensures { IfOk result (λ taken. tasks_of self.now ≡ taken.task ∷ map Task.Show (rest_left taken.left)) }
    {
        match self {
            Frame::Task(task) => Ok(Taken {
                task: task.copy(alloc)?,
                left: None,
            }),
            Frame::Rest(rest) => Ok(Taken {
                task: Task::Show(rest.next(alloc)?),
                left: rest.behind()?,
            }),
        }
    }

    /// Puts copies of all tasks behind those that were made before.
    pub(crate) fn push_copies(&self, alloc: Global, made: &mut Tasks) -> Result<(), Memory>
        ensures { OnOk result (made.new ≡ made.old ++ tasks_of self.now) }
    {
        match self {
            Frame::Task(task) => made.push(task.copy(alloc)?),
            Frame::Rest(rest) => rest.push_shows(alloc, made),
        }
    }
}
