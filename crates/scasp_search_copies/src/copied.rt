//! A state that is changed in place, and copies of those that wait.
ghost use Rattle.std.specs.Prelude.{◌≡◌, []};
ghost use Rattle.scasp_search_copies.specs.Saved.{now_of, points_of};

use crate::ahead::{has_work, innermost};
use crate::asking::{asked_list, context_list, given_list, status};
use crate::closing::closed;
use crate::literals::marked;
use crate::tasks::{apart_task, body_tasks, failing_tasks, head_equations, take_task, with_task};
use scasp_list::Memory;
use scasp_search_calls::{
    leave_literal, nearest, opposite_constraints, pays, seen, waits, with_cases, with_literal,
};
use scasp_search_constraints::{SearchErr, is_constrained, is_number_by, passes, split_at};
use scasp_search_ends::close_overflows;
use scasp_search_rules::{
    Bindings, Covers, Kind, Line, Lines, Literals, Made, Repeated, State, Status, Task, Tasks,
    Variables,
};
use scasp_search_state::{Begun, Choice, Situation};
use scasp_search_terms::forms::read_simple;
use scasp_search_terms::reading::read;
use scasp_search_terms::regions::before;
use scasp_search_terms::variables::{
    depth_of, is_universal, lower_all, made_at, universals_of, with_new,
};
use scasp_syntax::{Con, Cons, DeepCopy, Lit, Program, Term, Terms, VarList};
use scasp_unify::Binding;
use std::alloc::Global;
use std::mem;

/// A state that waits, and what is left of its successors.
#[derive(Drop)]
pub(crate) struct Saved {
    choice: Choice,
    state: State,
}

/// A state that is changed in place, and copies of those that wait.
pub struct Copied {
    state: State,
    /// The latest last.
    saved: Vec<Saved>,
}

impl Drop for Copied {
    /// Frees the parts. The crates above call this, and need not prove how each part is freed.
    fn drop(self) {
        let Copied { state, saved } = self;
        drop(state);
        drop(saved);
    }
}

/// A state with nothing in it.
fn nothing(alloc: Global) -> State {
    State {
        made: Variables::new(alloc),
        bound: Bindings::new(alloc),
        given: Cons::new(alloc),
        covers: Covers::new(alloc),
        cases: 0,
        literals: Literals::new(alloc),
        lines: Lines::new(alloc),
        work: Tasks::new(alloc),
    }
}

impl Copied {
    /// This state alone, behind which none waits.
    pub fn new(alloc: Global, state: State) -> Copied
        ensures now { now_of result ≡ state }
        ensures points { points_of result ≡ [] }
    {
        Copied {
            state,
            saved: Vec::new(alloc),
        }
    }

    fn alloc(&self) -> Global {
        *self.saved.allocator()
    }

    /// Takes the state out; another one is to be put in its place.
    fn take_out(&mut self) -> State
        ensures state { result ≡ self.old.state }
        ensures saved { self.new.saved ≡ self.old.saved }
    {
        let none = nothing(self.alloc());
        mem::replace(&mut self.state, none)
    }
}

impl Situation for Copied {
    ghost now = { now_of };

    ghost points = { points_of };

    // ---- variables

    fn next_variable(&self) -> u64 {
        self.state.made.len() as u64
    }

    fn made_at(&self, x: u64) -> Made {
        made_at(&self.state, x)
    }

    fn depth_of(&self, x: u64) -> u64 {
        depth_of(&self.state, x)
    }

    fn is_universal(&self, x: u64) -> bool {
        is_universal(&self.state, x)
    }

    fn make(&mut self, kind: Kind, depth: u64, count: u64) -> Result<(), Memory> {
        let state = self.take_out();
        self.state = with_new(state, kind, depth, count)?;
        Ok(())
    }

    fn bind_to(&mut self, x: u64, term: Term) -> Result<(), Memory> {
        self.state.bound.push(Binding { x, term })
    }

    fn lower(&mut self, depth: u64, xs: &[u64]) -> Result<(), Memory> {
        let none = Variables::new(self.alloc());
        let made = mem::replace(&mut self.state.made, none);
        self.state.made = lower_all(depth, xs, made);
        Ok(())
    }

    // ---- terms and constraints as they read

    fn read(&self, alloc: Global, term: &Term) -> Result<Term, Memory> {
        read(alloc, term, self.state.bound.as_slice())
    }

    fn read_simple(&self, alloc: Global, constraint: &Con) -> Result<Con, Memory> {
        read_simple(alloc, constraint, self.state.bound.as_slice())
    }

    fn universals_of(&self, alloc: Global, constraint: &Con) -> Result<VarList, Memory> {
        universals_of(alloc, &self.state, constraint)
    }

    // ---- constraints that hold

    fn is_constrained(&self, alloc: Global, x: u64) -> Result<bool, Memory> {
        is_constrained(alloc, &self.state, x)
    }

    fn is_number_by(&self, alloc: Global, depth: u64, x: u64) -> Result<bool, Memory> {
        is_number_by(alloc, &self.state, depth, x)
    }

    fn give(&mut self, constraint: Con) -> Result<(), Memory> {
        self.state.given.push(constraint)
    }

    // ---- questions

    fn status(&mut self, alloc: Global, constraint: &Con) -> Result<Status, SearchErr> {
        status(alloc, &self.state, constraint)
    }

    fn asks_given(&mut self, alloc: Global) -> Result<bool, SearchErr> {
        let list = given_list(alloc, &self.state)?;
        passes(alloc, list.as_slice())
    }

    fn asks_context(&mut self, alloc: Global) -> Result<bool, SearchErr> {
        let list = context_list(alloc, &self.state)?;
        passes(alloc, list.as_slice())
    }

    fn asks_context_with(&mut self, alloc: Global, constraint: &Con) -> Result<bool, SearchErr> {
        let list = asked_list(alloc, &self.state, true, constraint.copy(alloc)?)?;
        passes(alloc, list.as_slice())
    }

    // ---- covers

    fn depth(&self) -> u64 {
        self.state.covers.len() as u64
    }

    fn innermost(&self) -> Option<Begun> {
        innermost(self.state.covers.as_slice())
    }

    fn waits(&self) -> bool {
        waits(self.state.covers.as_slice())
    }

    fn open_cover(&mut self, alloc: Global, program: &Program, begun: Begun) -> Result<(), Memory> {
        let state = self.take_out();
        self.state = with_cases(alloc, program, state, begun)?;
        Ok(())
    }

    fn split_at(&mut self, alloc: Global, depth: u64, constraint: &Con) -> Result<(), Memory> {
        let state = self.take_out();
        self.state = split_at(alloc, state, depth, constraint)?;
        Ok(())
    }

    fn close_case(&mut self, alloc: Global) -> Result<(), Memory> {
        let state = self.take_out();
        self.state = closed(alloc, state)?;
        Ok(())
    }

    // ---- literals

    fn nearest(&self, alloc: Global, lit: &Lit) -> Result<Option<Repeated>, Memory> {
        nearest(alloc, &self.state, lit)
    }

    fn seen(&self, alloc: Global, lit: &Lit) -> Result<Option<u64>, Memory> {
        seen(alloc, &self.state, lit)
    }

    fn opposites(&self, alloc: Global, lit: &Lit) -> Result<Cons, Memory> {
        opposite_constraints(alloc, &self.state, lit)
    }

    fn open_literal(&mut self, alloc: Global, lit: &Lit) -> Result<(), Memory> {
        let state = self.take_out();
        self.state = with_literal(alloc, state, lit)?;
        Ok(())
    }

    fn loops_out(&mut self) -> Result<(), Memory> {
        let state = self.take_out();
        self.state = marked(self.alloc(), state)?;
        Ok(())
    }

    fn leave_literal(&mut self) -> Result<(), Memory> {
        let state = self.take_out();
        self.state = leave_literal(self.alloc(), state)?;
        Ok(())
    }

    // ---- lines and work

    fn tell(&mut self, line: Line) -> Result<(), Memory> {
        self.state.lines.push(line)
    }

    fn put(&mut self, task: Task) -> Result<(), Memory> {
        let none = Tasks::new(self.alloc());
        let work = mem::replace(&mut self.state.work, none);
        self.state.work = with_task(task, work)?;
        Ok(())
    }

    fn put_all(&mut self, tasks: Tasks) -> Result<(), Memory> {
        let state = self.take_out();
        self.state = before(tasks, state)?;
        Ok(())
    }

    fn put_body(
        &mut self,
        alloc: Global,
        program: &Program,
        clause: u64,
        first: u64,
    ) -> Result<(), Memory> {
        let tasks = body_tasks(alloc, program, clause, first)?;
        self.put_all(tasks)
    }

    fn put_failing(
        &mut self,
        alloc: Global,
        program: &Program,
        clause: u64,
        first: u64,
        place: u64,
    ) -> Result<(), Memory> {
        let tasks = failing_tasks(alloc, program, clause, first, place)?;
        self.put_all(tasks)
    }

    fn put_equations(
        &mut self,
        alloc: Global,
        args: &Terms,
        program: &Program,
        clause: u64,
        first: u64,
    ) -> Result<(), Memory> {
        let tasks = head_equations(alloc, args, program, clause, first)?;
        self.put_all(tasks)
    }

    fn put_apart(
        &mut self,
        alloc: Global,
        args: &Terms,
        program: &Program,
        rule: u64,
        first: u64,
    ) -> Result<(), Memory> {
        let task = apart_task(alloc, args, program, rule, first)?;
        self.put(task)
    }

    fn take_task(&mut self) -> Result<Option<Task>, Memory> {
        let alloc = self.alloc();
        Ok(take_task(alloc, &mut self.state))
    }

    fn has_work(&self) -> bool {
        has_work(self.state.work.as_slice())
    }

    fn pays(&self) -> bool {
        pays(&self.state)
    }

    fn close_overflows(&self, alloc: Global) -> Result<bool, Memory> {
        close_overflows(alloc, &self.state)
    }

    // ---- points

    #[tactic(auto, using(crate::proofs::SavedLemmas::saved_last))]
    fn save(&mut self, choice: Choice) -> Result<(), Memory> {
        let state = self.state.copy(self.alloc())?;
        self.saved.push(Saved { choice, state })?;
        Ok(())
    }

    #[tactic(auto, using(crate::proofs::SavedLemmas::none_saved, crate::proofs::SavedLemmas::last_taken))]
    fn take(&mut self) -> Result<Option<Choice>, Memory> {
        match self.saved.pop() {
            Some(Saved { choice, state }) => {
                self.state = state;
                Ok(Some(choice))
            }
            None => Ok(None),
        }
    }

    // ---- all

    fn state(&self, alloc: Global) -> Result<State, Memory> {
        self.state.copy(alloc)
    }
}
