//! Work of the search.
ghost use Rattle.std.specs.Prelude.{◌≡◌, [], ◌∷◌, ◌++◌, map, IfOk, OnOk, OnErr};
ghost use Rattle.scasp_search_rules.specs.Successors.Calls.{head_args};
ghost use Rattle.scasp_search_rules.specs.Successors.Cases.{failing_at};
ghost use Rattle.scasp_search_rules.specs.Successors.Equations.{equations};
ghost use Rattle.scasp_search_rules.specs.Successors.Items.{body_of};
ghost use Rattle.scasp_search_rules.specs.Successors.Pairs.{pairs};
ghost use Rattle.scasp_search_rules.specs.Successors.Replacing.{closes};
ghost use Rattle.scasp_search_rules.specs.Successors.Search.{pays, waits};
ghost use Rattle.scasp_search_rules.specs.declared.states.state.State.{State};
ghost use Rattle.scasp_search_state.specs.Choices.{TakesTask};
ghost use Rattle.scasp_search_state.specs.Words.{has_work};
ghost use Rattle.scasp_trail.specs.Past.{earlier, is_marked, latest};

use crate::bodies::{apart_from_head, body_rest, head_equations, put_failing};
use crate::frame::Frame;
use crate::work::{copies, has_next, next_closes, next_pays, put, put_all, put_rest, take_next};
use scasp_list::Memory;
use scasp_search_rules::{Aim, Task, Tasks};
use scasp_syntax::{Program, Terms};
use scasp_trail::Trailed;
use std::alloc::Global;
use std::marker::Model;

/// What is still to be done.
pub struct Frames {
    /// The next frame is the last.
    frames: Trailed<Frame>,
}

impl Drop for Frames {
    /// Frees the parts. The crates above call this, and need not prove how each part is freed.
    fn drop(self) {
        let Frames { frames } = self;
        drop(frames);
    }
}

impl Model for Frames {
    ghost use Rattle.scasp_syntax.specs.TmCode.{coded_tms};
    ghost use Rattle.std.specs.Coded.{codes};
    ghost use Rattle.scasp_search_rules.specs.declared.states.tasks.Task.{Task};
    ghost use Rattle.scasp_trail.specs.Past.{Past};
    ghost use Rattle.scasp_frames.specs.Inside.Kept.{past_work};

    ghost Value = { Past Task };

    ghost coded = { Prim.hlevel (codes, coded_tms) };

    ghost view = { λ f. past_work f.frames };
}

impl Frames {
    /// No work and no mark; no memory is taken.
    pub fn new(alloc: Global) -> Frames
        ensures { result ≡ record { now = []; before = [] } }
    {
        Frames {
            frames: Trailed::new(alloc),
        }
    }

    /// Whether something is left to do.
    pub fn has_work(&self) -> bool
        ensures { result ≡ has_work self.now.now }
    {
        has_next(self.frames.as_slice())
    }

    /// Whether the first task costs a call, in a state where a remainder of the innermost cover waits or not.
    pub fn pays(&self, is_waiting: bool) -> bool
        ensures { (s : State) → waits s.covers ≡ is_waiting → s.work ≡ self.now.now → result ≡ pays s }
    {
        next_pays(self.frames.as_slice(), is_waiting)
    }

    /// Whether the first task ends a case.
    pub fn closes(&self) -> bool
        ensures { result ≡ closes self.now.now }
    {
        next_closes(self.frames.as_slice())
    }

    /// Copies of all tasks, the next one first.
    pub fn tasks(&self, alloc: Global) -> Result<Tasks, Memory>
        ensures { IfOk result (λ made. made ≡ self.now.now) }
    {
        copies(alloc, self.frames.as_slice())
    }

    /// Puts the task before all others.
    pub fn put(&mut self, task: Task) -> Result<(), Memory>
        ensures now { OnOk result (self.new.now ≡ task ∷ self.old.now) }
        ensures before { self.new.before ≡ self.old.before }
        ensures unchanged { OnErr result (self.new ≡ self.old) }
    {
        put(&mut self.frames, task)?;
        Ok(())
    }

    /// Puts the tasks before all others.
    pub fn put_all(&mut self, tasks: Tasks) -> Result<(), Memory>
        ensures now { OnOk result (self.new.now ≡ tasks ++ self.old.now) }
        ensures before { self.new.before ≡ self.old.before }
    {
        put_all(&mut self.frames, tasks)?;
        Ok(())
    }

    /// Puts the flat body of a clause, with its variables from `first` on, before all others.
    pub fn put_body(
        &mut self,
        alloc: Global,
        program: &Program,
        clause: u64,
        first: u64,
    ) -> Result<(), Memory>
        ensures now { OnOk result (self.new.now ≡ map Task.Show (body_of program.now clause first) ++ self.old.now) }
        ensures before { self.new.before ≡ self.old.before }
    {
        let rest = body_rest(alloc, program, clause, first)?;
        put_rest(&mut self.frames, rest)?;
        Ok(())
    }

    /// Puts the items of the flat body of a clause before the one at this place, and that one false, before all others; the
    /// whole body where it is no longer.
    pub fn put_failing(
        &mut self,
        alloc: Global,
        program: &Program,
        clause: u64,
        first: u64,
        place: u64,
    ) -> Result<(), Memory>
        ensures now { OnOk result (self.new.now ≡ map Task.Show (failing_at place (body_of program.now clause first)) ++ self.old.now) }
        ensures before { self.new.before ≡ self.old.before }
    {
        put_failing(alloc, &mut self.frames, program, clause, first, place)?;
        Ok(())
    }

    /// Puts the equations of these terms with the arguments of the head of a clause before all others.
    pub fn put_equations(
        &mut self,
        alloc: Global,
        args: &Terms,
        program: &Program,
        clause: u64,
        first: u64,
    ) -> Result<(), Memory>
        ensures now { OnOk result (self.new.now ≡ equations args.now (head_args program.now clause first) ++ self.old.now) }
        ensures before { self.new.before ≡ self.old.before }
    {
        let tasks = head_equations(alloc, args, program, clause, first)?;
        put_all(&mut self.frames, tasks)?;
        Ok(())
    }

    /// Puts before all others that these terms are to differ from the arguments of the head of a rule.
    pub fn put_apart(
        &mut self,
        alloc: Global,
        args: &Terms,
        program: &Program,
        rule: u64,
        first: u64,
    ) -> Result<(), Memory>
        ensures now { OnOk result (self.new.now ≡ Task.Differ (pairs args.now (head_args program.now rule first)) (Aim.Head rule first) ∷ self.old.now) }
        ensures before { self.new.before ≡ self.old.before }
        ensures unchanged { OnErr result (self.new ≡ self.old) }
    {
        let task = apart_from_head(alloc, args, program, rule, first)?;
        put(&mut self.frames, task)?;
        Ok(())
    }

    /// Takes the first task away, if there is one.
    #[tactic(auto, using(crate::proofs::WorkLemmas::taken_in))]
    pub fn take_task(&mut self, alloc: Global) -> Result<Option<Task>, Memory>
        ensures taken { (s : State) → s.work ≡ self.old.now → IfOk result (λ task. TakesTask s s.work (record s { work = self.new.now }) task) }
        ensures before { self.new.before ≡ self.old.before }
    {
        take_next(alloc, &mut self.frames)
    }

    /// Whether there is a mark.
    pub fn is_marked(&self) -> bool
        ensures { result ≡ is_marked self.now.before }
    {
        self.frames.is_marked()
    }

    /// Marks the work as it is now.
    pub fn mark(&mut self) -> Result<(), Memory>
        ensures now { self.new.now ≡ self.old.now }
        ensures before { OnOk result (self.new.before ≡ self.old.now ∷ self.old.before) }
        ensures unchanged { OnErr result (self.new ≡ self.old) }
    {
        self.frames.mark()?;
        Ok(())
    }

    /// Makes the work again what it was at the latest mark, which is taken away; without a mark it stays as it is. No memory
    /// is taken.
    #[tactic(auto, using(crate::proofs::WorkLemmas::work_latest, crate::proofs::WorkLemmas::work_earlier))]
    pub fn leave(&mut self)
        ensures now { self.new.now ≡ latest self.old.now self.old.before }
        ensures before { self.new.before ≡ earlier self.old.before }
    {
        self.frames.leave();
    }
}
