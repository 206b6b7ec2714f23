//! A state that is changed in place, and marks of those that wait.
ghost use Rattle.std.specs.Prelude.{◌≡◌, []};
ghost use Rattle.scasp_search_rules.specs.Successors.Search.{nothing};
ghost use Rattle.scasp_search_trail.specs.States.{now_of, points_of};

use crate::closing::close_case;
use crate::copying::state_copy;
use crate::covers::{close_overflows, innermost, open_cover, open_literal, seen, tell};
use crate::parts::Parts;
use crate::questions::{
    asks, asks_with, is_constrained, is_number_by, regions, status, universals_of,
};
use crate::splits::split_at;
use scasp_list::Memory;
use scasp_readings::read_simple;
use scasp_search_constraints::SearchErr;
use scasp_search_rules::{Kind, Line, Made, Repeated, State, Status, Task, Tasks};
use scasp_search_state::{Begun, Choice, Situation};
use scasp_syntax::{Con, Cons, DeepCopy, Lit, Program, Term, Terms, VarList};
use std::alloc::Global;

/// What a state that waits has beside the marks of its parts: what is left of its successors, and how many cases had begun.
#[derive(Drop)]
pub(crate) struct Saved {
    choice: Choice,
    cases: u64,
}

/// A state that is changed in place, and marks of those that wait.
pub struct Trail {
    pub(crate) parts: Parts,
    /// The latest last.
    saved: Vec<Saved>,
}

impl Drop for Trail {
    /// Frees the parts. The crates above call this, and need not prove how each part is freed.
    fn drop(self) {
        let Trail { parts, saved } = self;
        drop(parts);
        drop(saved);
    }
}

impl Trail {
    /// A state with nothing in it, behind which none waits. No memory is taken.
    pub fn new(alloc: Global) -> Trail
        ensures now { now_of result ≡ nothing }
        ensures points { points_of result ≡ [] }
    {
        Trail {
            parts: Parts::new(alloc),
            saved: Vec::new(alloc),
        }
    }

    fn alloc(&self) -> Global {
        *self.saved.allocator()
    }
}

impl Situation for Trail {
    ghost now = { now_of };

    ghost points = { points_of };

    // ---- variables

    fn next_variable(&self) -> u64 {
        self.parts.variables.next_variable()
    }

    fn made_at(&self, x: u64) -> Made {
        self.parts.variables.made_at(x)
    }

    fn depth_of(&self, x: u64) -> u64 {
        self.parts.variables.depth_of(x)
    }

    fn is_universal(&self, x: u64) -> bool {
        self.parts.variables.is_universal(x)
    }

    fn make(&mut self, kind: Kind, depth: u64, count: u64) -> Result<(), Memory> {
        self.parts.variables.make(kind, depth, count)
    }

    fn bind_to(&mut self, x: u64, term: Term) -> Result<(), Memory> {
        let alloc = self.alloc();
        self.parts.store.bind(alloc, x, term)
    }

    fn lower(&mut self, depth: u64, xs: &[u64]) -> Result<(), Memory> {
        self.parts.variables.lower(depth, xs)
    }

    // ---- terms and constraints as they read

    fn read(&self, alloc: Global, term: &Term) -> Result<Term, Memory> {
        self.parts.store.bound().read(alloc, term)
    }

    fn read_simple(&self, alloc: Global, constraint: &Con) -> Result<Con, Memory> {
        read_simple(alloc, self.parts.store.bound(), constraint)
    }

    fn universals_of(&self, alloc: Global, constraint: &Con) -> Result<VarList, Memory> {
        universals_of(alloc, &self.parts, constraint)
    }

    // ---- constraints that hold

    fn is_constrained(&self, alloc: Global, x: u64) -> Result<bool, Memory> {
        is_constrained(alloc, &self.parts, x)
    }

    fn is_number_by(&self, alloc: Global, depth: u64, x: u64) -> Result<bool, Memory> {
        is_number_by(alloc, &self.parts, depth, x)
    }

    fn give(&mut self, constraint: Con) -> Result<(), Memory> {
        self.parts.store.give(constraint)
    }

    // ---- questions

    fn status(&mut self, alloc: Global, constraint: &Con) -> Result<Status, SearchErr> {
        status(alloc, &mut self.parts, constraint)
    }

    fn asks_given(&mut self, alloc: Global) -> Result<bool, SearchErr> {
        asks(alloc, &mut self.parts, &[])
    }

    fn asks_context(&mut self, alloc: Global) -> Result<bool, SearchErr> {
        let more = regions(alloc, &self.parts)?;
        asks(alloc, &mut self.parts, more.as_slice())
    }

    fn asks_context_with(&mut self, alloc: Global, constraint: &Con) -> Result<bool, SearchErr> {
        asks_with(alloc, &mut self.parts, true, constraint.copy(alloc)?)
    }

    // ---- covers

    #[tactic(auto, using(crate::proofs::CoverLemmas::covers_length))]
    fn depth(&self) -> u64 {
        self.parts.scopes.depth() as u64
    }

    fn innermost(&self) -> Option<Begun> {
        innermost(&self.parts)
    }

    #[tactic(auto, using(crate::proofs::CoverLemmas::still_waits))]
    fn waits(&self) -> bool {
        self.parts.scopes.waits()
    }

    fn open_cover(&mut self, alloc: Global, program: &Program, begun: Begun) -> Result<(), Memory> {
        open_cover(alloc, program, &mut self.parts, begun)
    }

    fn split_at(&mut self, alloc: Global, depth: u64, constraint: &Con) -> Result<(), Memory> {
        split_at(alloc, &mut self.parts, depth, constraint)
    }

    fn close_case(&mut self, alloc: Global) -> Result<(), Memory> {
        close_case(alloc, &mut self.parts)
    }

    // ---- literals

    fn nearest(&self, alloc: Global, lit: &Lit) -> Result<Option<Repeated>, Memory> {
        self.parts
            .loops
            .nearest(alloc, self.parts.store.bound(), lit)
    }

    fn seen(&self, alloc: Global, lit: &Lit) -> Result<Option<u64>, Memory> {
        seen(alloc, &self.parts, lit)
    }

    fn opposites(&self, alloc: Global, lit: &Lit) -> Result<Cons, Memory> {
        let bound = self.parts.store.bound();
        self.parts
            .loops
            .opposites(alloc, bound, &self.parts.variables, lit)
    }

    fn open_literal(&mut self, alloc: Global, lit: &Lit) -> Result<(), Memory> {
        open_literal(alloc, &mut self.parts, lit)
    }

    fn loops_out(&mut self) -> Result<(), Memory> {
        self.parts.loops.loops_out()
    }

    fn leave_literal(&mut self) -> Result<(), Memory> {
        self.parts.loops.leave_literal()
    }

    // ---- lines and work

    fn tell(&mut self, line: Line) -> Result<(), Memory> {
        tell(&mut self.parts, line)
    }

    fn put(&mut self, task: Task) -> Result<(), Memory> {
        self.parts.frames.put(task)
    }

    fn put_all(&mut self, tasks: Tasks) -> Result<(), Memory> {
        self.parts.frames.put_all(tasks)
    }

    fn put_body(
        &mut self,
        alloc: Global,
        program: &Program,
        clause: u64,
        first: u64,
    ) -> Result<(), Memory> {
        self.parts.frames.put_body(alloc, program, clause, first)
    }

    fn put_failing(
        &mut self,
        alloc: Global,
        program: &Program,
        clause: u64,
        first: u64,
        place: u64,
    ) -> Result<(), Memory> {
        let frames = &mut self.parts.frames;
        frames.put_failing(alloc, program, clause, first, place)
    }

    fn put_equations(
        &mut self,
        alloc: Global,
        args: &Terms,
        program: &Program,
        clause: u64,
        first: u64,
    ) -> Result<(), Memory> {
        let frames = &mut self.parts.frames;
        frames.put_equations(alloc, args, program, clause, first)
    }

    fn put_apart(
        &mut self,
        alloc: Global,
        args: &Terms,
        program: &Program,
        rule: u64,
        first: u64,
    ) -> Result<(), Memory> {
        let frames = &mut self.parts.frames;
        frames.put_apart(alloc, args, program, rule, first)
    }

    fn take_task(&mut self) -> Result<Option<Task>, Memory> {
        let alloc = self.alloc();
        self.parts.frames.take_task(alloc)
    }

    fn has_work(&self) -> bool {
        self.parts.frames.has_work()
    }

    #[tactic(auto, using(crate::proofs::CoverLemmas::still_waits))]
    fn pays(&self) -> bool {
        self.parts.frames.pays(self.parts.scopes.waits())
    }

    fn close_overflows(&self, alloc: Global) -> Result<bool, Memory> {
        close_overflows(alloc, &self.parts)
    }

    // ---- points

    #[tactic(auto, using(crate::proofs::MarkLemmas::saved_last))]
    fn save(&mut self, choice: Choice) -> Result<(), Memory> {
        let alloc = self.alloc();
        let cases = self.parts.cases;
        self.parts.mark(alloc)?;
        self.saved.push(Saved { choice, cases })?;
        Ok(())
    }

    #[tactic(auto, using(crate::proofs::MarkLemmas::none_saved, crate::proofs::MarkLemmas::last_taken))]
    fn take(&mut self) -> Result<Option<Choice>, Memory> {
        match self.saved.pop() {
            Some(Saved { choice, cases }) => {
                self.parts.leave()?;
                self.parts.cases = cases;
                Ok(Some(choice))
            }
            None => Ok(None),
        }
    }

    // ---- all

    fn state(&self, alloc: Global) -> Result<State, Memory> {
        state_copy(alloc, &self.parts)
    }
}
