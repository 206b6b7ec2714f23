//! A state that is changed in place.
ghost use Rattle.std.specs.Prelude.{◌≡◌, ◌∷◌, ◌++◌, [], List, IfOk, OnOk, false, filter, length, map};
ghost use Rattle.scasp_hint.specs.Satisfying.{sat};
ghost use Rattle.scasp_search_constraints.specs.Assuming.Taken.{Gives};
ghost use Rattle.scasp_search_rules.specs.Successors.Assumptions.{as_read, asked_for, status};
ghost use Rattle.scasp_search_rules.specs.Successors.Calls.{ancestors, can_be_seen, differing, head_args, leave_literal, marked, nearest, opposites, with_literal};
ghost use Rattle.scasp_search_rules.specs.Successors.Cases.{failing_at};
ghost use Rattle.scasp_search_rules.specs.Successors.Equations.{equations};
ghost use Rattle.scasp_search_rules.specs.Successors.Items.{body_of, with_line};
ghost use Rattle.scasp_search_rules.specs.Successors.Pairs.{pairs};
ghost use Rattle.scasp_search_rules.specs.Successors.Regions.{asked_with, before, context, is_constrained, with_given};
ghost use Rattle.scasp_search_rules.specs.Successors.Replacing.{close_overflows};
ghost use Rattle.scasp_search_rules.specs.Successors.Search.{pays, waits};
ghost use Rattle.scasp_search_rules.specs.Successors.Splits.{is_number_by, split_at};
ghost use Rattle.scasp_search_rules.specs.Successors.Variables.{depth_of, is_universal, lowered, made_at, meaning, next_variable, universals_of, with_binding, with_new};
ghost use Rattle.scasp_search_rules.specs.declared.states.state.State.{State as ThisState};
ghost use Rattle.scasp_search_state.specs.Choices.{Point, Taken, TakesTask};
ghost use Rattle.scasp_search_state.specs.Words.{closed, first_number, has_work, innermost, opened};
ghost use Rattle.scasp_syntax.specs.Values.{under};
ghost use Rattle.scasp_syntax.specs.View.{tm_of};

use crate::choice::{Begun, Choice};
use scasp_list::Memory;
use scasp_search_constraints::SearchErr;
use scasp_search_rules::{Aim, Kind, Line, Made, Repeated, State, Status, Task, Tasks};
use scasp_syntax::{Con, Cons, Lit, Program, Term, Terms, VarList};
use std::alloc::Global;

/// A state that is changed in place, with states that wait behind it.
///
/// Each call that changes it does so by one word of the search's rules, and all but `save` and `take` leave the states that
/// wait as they are. No call gives out a reference into the state. Want of memory, which a number past 64 bits counts as
/// too, may come of any call that is a `Result`; behind an error nothing is promised of the state, and no call is to be made
/// any more.
pub trait Situation {
    ghost now: { Self → ThisState };

    ghost points: { Self → List Point };

    // ---- variables

    /// The number that the next variable gets.
    fn next_variable(&self) -> u64
        ensures { result ≡ next_variable (now self.now) };

    /// The kind and the depth of a variable.
    fn made_at(&self, x: u64) -> Made
        ensures { result ≡ made_at (now self.now) x };

    /// How many covers the value of a variable may depend on.
    fn depth_of(&self, x: u64) -> u64
        ensures { result ≡ depth_of (now self.now) x };

    fn is_universal(&self, x: u64) -> bool
        ensures { result ≡ is_universal (now self.now) x };

    /// So many new variables.
    fn make(&mut self, kind: Kind, depth: u64, count: u64) -> Result<(), Memory>
        ensures now { OnOk result (now self.new ≡ with_new (now self.old) kind depth count) }
        ensures points { OnOk result (points self.new ≡ points self.old) };

    /// The variable is bound to the term, whose variables stay as they are.
    fn bind_to(&mut self, x: u64, term: Term) -> Result<(), Memory>
        ensures now { OnOk result (now self.new ≡ with_binding (now self.old) x (tm_of term)) }
        ensures points { OnOk result (points self.new ≡ points self.old) };

    /// The existential variables among these get at most this depth.
    fn lower(&mut self, depth: u64, xs: &[u64]) -> Result<(), Memory>
        ensures now { OnOk result (now self.new ≡ record (now self.old) { made = lowered depth xs.now (now self.old).made }) }
        ensures points { OnOk result (points self.new ≡ points self.old) };

    // ---- terms and constraints as they read

    /// The term as it reads.
    fn read(&self, alloc: Global, term: &Term) -> Result<Term, Memory>
        ensures { IfOk result (λ made. tm_of made ≡ under (meaning (now self.now)) (tm_of term.now)) };

    /// The constraint as it reads, in simple form.
    fn read_simple(&self, alloc: Global, constraint: &Con) -> Result<Con, Memory>
        ensures { IfOk result (λ made. made ≡ as_read (now self.now) constraint.now) };

    /// The universal variables of the constraint, as it reads.
    fn universals_of(&self, alloc: Global, constraint: &Con) -> Result<VarList, Memory>
        ensures { IfOk result (λ found. found ≡ universals_of (now self.now) constraint.now) };

    // ---- constraints that hold

    /// Whether the variable stands in a given constraint, in one of a region or in one of a remainder.
    fn is_constrained(&self, alloc: Global, x: u64) -> Result<bool, Memory>
        ensures { IfOk result (λ stands. stands ≡ is_constrained (now self.now) x) };

    /// Whether the test that the variable is a number is given, or stands in a region down to this depth.
    fn is_number_by(&self, alloc: Global, depth: u64, x: u64) -> Result<bool, Memory>
        ensures { IfOk result (λ is. is ≡ is_number_by (now self.now) depth x) };

    /// The constraint is given from now on.
    fn give(&mut self, constraint: Con) -> Result<(), Memory>
        ensures now { OnOk result (now self.new ≡ with_given (now self.old) constraint) }
        ensures points { OnOk result (points self.new ≡ points self.old) };

    // ---- questions: an overflow is told only where a list that is asked overflows

    /// What becomes of the state where the constraint is assumed.
    fn status(&mut self, alloc: Global, constraint: &Con) -> Result<Status, SearchErr>
        ensures status { Gives result (status sat (now self.old) constraint.now) (asked_for sat (now self.old) constraint.now) }
        ensures now { IfOk result (λ _. now self.new ≡ now self.old) }
        ensures points { IfOk result (λ _. points self.new ≡ points self.old) };

    /// Whether the given constraints have a valuation.
    fn asks_given(&mut self, alloc: Global) -> Result<bool, SearchErr>
        ensures answer { Gives result (sat (asked_with (now self.old) (now self.old).given)) (asked_with (now self.old) (now self.old).given ∷ []) }
        ensures now { IfOk result (λ _. now self.new ≡ now self.old) }
        ensures points { IfOk result (λ _. points self.new ≡ points self.old) };

    /// Whether the given constraints and those of the regions have a valuation.
    fn asks_context(&mut self, alloc: Global) -> Result<bool, SearchErr>
        ensures answer { Gives result (sat (asked_with (now self.old) (context (now self.old)))) (asked_with (now self.old) (context (now self.old)) ∷ []) }
        ensures now { IfOk result (λ _. now self.new ≡ now self.old) }
        ensures points { IfOk result (λ _. points self.new ≡ points self.old) };

    /// Whether the given constraints and those of the regions have a valuation together with this one.
    fn asks_context_with(&mut self, alloc: Global, constraint: &Con) -> Result<bool, SearchErr>
        ensures answer { Gives result (sat (asked_with (now self.old) (context (now self.old) ++ constraint.now ∷ []))) (asked_with (now self.old) (context (now self.old) ++ constraint.now ∷ []) ∷ []) }
        ensures now { IfOk result (λ _. now self.new ≡ now self.old) }
        ensures points { IfOk result (λ _. points self.new ≡ points self.old) };

    // ---- covers

    /// How many covers are open.
    fn depth(&self) -> u64
        ensures { result ≡ length (now self.now).covers };

    /// The clause of the innermost cover.
    fn innermost(&self) -> Option<Begun>
        ensures { result ≡ innermost (now self.now).covers };

    /// Whether a remainder of the innermost cover waits.
    fn waits(&self) -> bool
        ensures { result ≡ waits (now self.now).covers };

    /// The cover of the clause is the innermost one; the clause's unbound variables are its universals.
    fn open_cover(&mut self, alloc: Global, program: &Program, begun: Begun) -> Result<(), Memory>
        ensures now { OnOk result (now self.new ≡ opened program.now (now self.old) begun) }
        ensures points { OnOk result (points self.new ≡ points self.old) };

    /// The case of the cover of this depth is parted by a constraint that reads as it stands.
    fn split_at(&mut self, alloc: Global, depth: u64, constraint: &Con) -> Result<(), Memory>
        ensures now { OnOk result (now self.new ≡ split_at (now self.old) depth constraint.now) }
        ensures points { OnOk result (points self.new ≡ points self.old) };

    /// The case of the innermost cover has ended, and what it has told stands as it reads now: the last remainder is its case,
    /// and where none waits the cover is gone.
    fn close_case(&mut self, alloc: Global) -> Result<(), Memory>
        ensures now { OnOk result (now self.new ≡ closed (now self.old) (now self.old).covers) }
        ensures points { OnOk result (points self.new ≡ points self.old) };

    // ---- literals

    /// The nearest literal above that is this one.
    fn nearest(&self, alloc: Global, lit: &Lit) -> Result<Option<Repeated>, Memory>
        ensures { IfOk result (λ found. found ≡ nearest (now self.now) lit.now false (ancestors (now self.now))) };

    /// The number of the earliest literal that a call of this one sees again.
    fn seen(&self, alloc: Global, lit: &Lit) -> Result<Option<u64>, Memory>
        ensures { IfOk result (λ found. found ≡ first_number (filter (can_be_seen (now self.now) lit.now) (now self.now).literals)) };

    /// That the arguments differ from those of each earlier literal of the other sign.
    fn opposites(&self, alloc: Global, lit: &Lit) -> Result<Cons, Memory>
        ensures { IfOk result (λ made. made ≡ map (differing lit.now) (opposites (now self.now) lit.now)) };

    /// One more literal, inside the last one that is open.
    fn open_literal(&mut self, alloc: Global, lit: &Lit) -> Result<(), Memory>
        ensures now { OnOk result (now self.new ≡ with_literal (now self.old) lit.now) }
        ensures points { OnOk result (points self.new ≡ points self.old) };

    /// A positive loop leads out of the innermost literal that is open.
    fn loops_out(&mut self) -> Result<(), Memory>
        ensures now { OnOk result (now self.new ≡ marked (ancestors (now self.old)) (now self.old)) }
        ensures points { OnOk result (points self.new ≡ points self.old) };

    /// The innermost literal that is open is done.
    fn leave_literal(&mut self) -> Result<(), Memory>
        ensures now { OnOk result (now self.new ≡ leave_literal (now self.old)) }
        ensures points { OnOk result (points self.new ≡ points self.old) };

    // ---- lines and work

    /// One more line of the innermost case.
    fn tell(&mut self, line: Line) -> Result<(), Memory>
        ensures now { OnOk result (now self.new ≡ with_line (now self.old) line) }
        ensures points { OnOk result (points self.new ≡ points self.old) };

    /// Puts a task before all others.
    fn put(&mut self, task: Task) -> Result<(), Memory>
        ensures now { OnOk result (now self.new ≡ before (task ∷ []) (now self.old)) }
        ensures points { OnOk result (points self.new ≡ points self.old) };

    /// Puts tasks before all others.
    fn put_all(&mut self, tasks: Tasks) -> Result<(), Memory>
        ensures now { OnOk result (now self.new ≡ before tasks (now self.old)) }
        ensures points { OnOk result (points self.new ≡ points self.old) };

    /// Puts the flat body of a clause, with its variables from `first` on, before all others.
    fn put_body(
        &mut self,
        alloc: Global,
        program: &Program,
        clause: u64,
        first: u64,
    ) -> Result<(), Memory>
        ensures now { OnOk result (now self.new ≡ before (map Task.Show (body_of program.now clause first)) (now self.old)) }
        ensures points { OnOk result (points self.new ≡ points self.old) };

    /// Puts the items of the flat body of a clause before the one at this place, and that one false, before all others; the
    /// whole body where it is no longer.
    fn put_failing(
        &mut self,
        alloc: Global,
        program: &Program,
        clause: u64,
        first: u64,
        place: u64,
    ) -> Result<(), Memory>
        ensures now { OnOk result (now self.new ≡ before (map Task.Show (failing_at place (body_of program.now clause first))) (now self.old)) }
        ensures points { OnOk result (points self.new ≡ points self.old) };

    /// Puts the equations of these terms with the arguments of the head of a clause before all others.
    fn put_equations(
        &mut self,
        alloc: Global,
        args: &Terms,
        program: &Program,
        clause: u64,
        first: u64,
    ) -> Result<(), Memory>
        ensures now { OnOk result (now self.new ≡ before (equations args.now (head_args program.now clause first)) (now self.old)) }
        ensures points { OnOk result (points self.new ≡ points self.old) };

    /// Puts before all others that these terms are to differ from the arguments of the head of a rule.
    fn put_apart(
        &mut self,
        alloc: Global,
        args: &Terms,
        program: &Program,
        rule: u64,
        first: u64,
    ) -> Result<(), Memory>
        ensures now { OnOk result (now self.new ≡ before (Task.Differ (pairs args.now (head_args program.now rule first)) (Aim.Head rule first) ∷ []) (now self.old)) }
        ensures points { OnOk result (points self.new ≡ points self.old) };

    /// Takes the first task from the work, if there is one.
    fn take_task(&mut self) -> Result<Option<Task>, Memory>
        ensures task { IfOk result (λ task. TakesTask (now self.old) (now self.old).work (now self.new) task) }
        ensures points { IfOk result (λ _. points self.new ≡ points self.old) };

    /// Whether something is left to do.
    fn has_work(&self) -> bool
        ensures { result ≡ has_work (now self.now).work };

    /// Whether a call, a case that begins or a remainder that is taken up comes next.
    fn pays(&self) -> bool
        ensures { result ≡ pays (now self.now) };

    /// Whether the end of a case with universal variables comes next, and the bindings cannot replace a row of its lines.
    fn close_overflows(&self, alloc: Global) -> Result<bool, Memory>
        ensures { IfOk result (λ overflows. overflows ≡ close_overflows (now self.now) (now self.now).work) };

    // ---- points

    /// Lets the state wait, with a choice.
    fn save(&mut self, choice: Choice) -> Result<(), Memory>
        ensures now { OnOk result (now self.new ≡ now self.old) }
        ensures points { OnOk result (points self.new ≡ record { choice = choice; state = now self.old } ∷ points self.old) };

    /// Makes the state of the latest point the present one again, and takes the point away, if there is one.
    fn take(&mut self) -> Result<Option<Choice>, Memory>
        ensures taken { IfOk result (λ taken. Taken (points self.old) (now self.new) (points self.new) taken) };

    // ---- all

    /// A copy of the state.
    fn state(&self, alloc: Global) -> Result<State, Memory>
        ensures { IfOk result (λ copied. copied ≡ now self.now) };
}
