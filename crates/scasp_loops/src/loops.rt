//! Literals with their marks and cases.
ghost use Rattle.std.specs.Prelude.{◌≡◌, ◌<◌, ◌≤◌, [], ◌∷◌, ◌++◌, Bool, List, false, filter, length, map, slice_get, Some, IfOk, OnOk, OnErr};
ghost use Rattle.scasp_loops.specs.Inside.Zipped.{StandsAt, literals_from};
ghost use Rattle.scasp_loops.specs.Held.{entered, literal_of};
ghost use Rattle.scasp_search_rules.specs.Successors.Assumptions.{assume_all};
ghost use Rattle.scasp_search_rules.specs.Successors.Calls.{ancestors, can_be_seen, differing, leave_literal, marked, nearest, open_cases, opposites};
ghost use Rattle.scasp_search_rules.specs.Successors.Cases.{kept_literal};
ghost use Rattle.scasp_search_rules.specs.declared.states.state.State.{State};
ghost use Rattle.scasp_search_state.specs.Words.{first_number};
ghost use Rattle.scasp_syntax.specs.declared.con.Con.{Con as ThisCon};
ghost use Rattle.scasp_trail.specs.Past.{earlier, is_marked, latest};

use crate::asking::{first_seen, nearest_open};
use crate::called::{Called, first_root};
use crate::ending::{end_each, note_each};
use crate::entry::{Entered, Entry, Marks};
use crate::innermost::{end_last, entry_at, loop_out, marks_at, note_done};
use crate::lists::{Lists, next_hint, prepare};
use crate::opposing::apart_from_opposites;
use scasp_bound::Bound;
use scasp_list::Memory;
use scasp_search_rules::{CaseList, Literal, Literals, Repeated};
use scasp_syntax::{Cons, DeepCopy, Lit};
use scasp_trail::Trailed;
use scasp_variables::Variables;
use std::alloc::Global;
use std::marker::Model;

/// Literals that were gone into, in order. The number of each is its place.
pub struct Loops {
    lists: Lists,
    /// Of each key, the place behind the latest literal that has it.
    latest: Trailed<usize>,
}

impl Drop for Loops {
    /// Frees the parts. The crates above call this, and need not prove how each part is freed.
    fn drop(self) {
        let Loops { lists, latest } = self;
        drop(lists);
        drop(latest);
    }
}

impl Model for Loops {
    ghost use Rattle.scasp_syntax.specs.TmCode.{coded_tms};
    ghost use Rattle.std.specs.Coded.{codes};
    ghost use Rattle.scasp_search_rules.specs.declared.states.state.Literal.{Literal};
    ghost use Rattle.scasp_trail.specs.Past.{Past};
    ghost use Rattle.scasp_loops.specs.Inside.Kept.{AreSound};
    ghost use Rattle.scasp_loops.specs.Inside.Zipped.{past_literals};

    ghost Value = { Past Literal };

    ghost coded = { Prim.hlevel (codes, coded_tms) };

    ghost view = { λ l. past_literals l.lists.entries l.lists.marks };

    ghost invariant = { λ l. AreSound l.lists l.latest };
}

impl Loops {
    /// No literals and no mark; no memory is taken.
    pub fn new(alloc: Global) -> Loops
        ensures { result ≡ record { now = []; before = [] } }
    {
        Loops {
            lists: Lists {
                entries: Trailed::new(alloc),
                marks: Trailed::new(alloc),
                hints: Trailed::new(alloc),
                raised: 0,
            },
            latest: Trailed::new(alloc),
        }
    }

    /// How many literals there are.
    #[tactic(auto, using(crate::proofs::ZipLemmas::literals_length))]
    pub fn len(&self) -> usize
        ensures { result ≡ length self.now.now }
    {
        self.lists.marks.len()
    }

    /// The literal of this number.
    #[tactic(auto, using(crate::proofs::ZipLemmas::literals_length, crate::proofs::ZipLemmas::literal_there))]
    pub fn get(&self, number: usize) -> Entered<'_>
        requires { number < length self.now.now }
        ensures { slice_get self.now.now number ≡ Some (literal_of number result.entry.now result.marks) }
    {
        Entered {
            entry: entry_at(self.lists.entries.as_slice(), number),
            marks: marks_at(self.lists.marks.as_slice(), number),
        }
    }

    /// Copies of all literals.
    pub fn literals(&self, alloc: Global) -> Result<Literals, Memory>
        ensures { IfOk result (λ made. made ≡ self.now.now) }
    {
        copies(
            alloc,
            self.lists.entries.as_slice(),
            self.lists.marks.as_slice(),
        )
    }

    /// The nearest literal that is open and is this one, as the bindings read both.
    #[tactic(auto, using(crate::proofs::AskLemmas::nearest_of))]
    pub fn nearest(
        &self,
        alloc: Global,
        bound: &Bound,
        lit: &Lit,
    ) -> Result<Option<Repeated>, Memory>
        ensures { (s : State) → s.literals ≡ self.now.now → s.bound ≡ bound.now.now → IfOk result (λ found. found ≡ nearest s lit.now false (ancestors s)) }
    {
        let latest = self.latest.as_slice();
        let found = nearest_open(alloc, &self.lists, latest, bound, lit)?;
        Ok(found)
    }

    /// The number of the earliest literal that a call of this one sees again, as the bindings read both. These are the cases
    /// that are open.
    #[tactic(auto, using(crate::proofs::AskLemmas::seen_of))]
    pub fn seen(
        &self,
        alloc: Global,
        bound: &Bound,
        cases: &[u64],
        lit: &Lit,
    ) -> Result<Option<u64>, Memory>
        ensures { (s : State) → s.literals ≡ self.now.now → s.bound ≡ bound.now.now → open_cases s ≡ cases.now → IfOk result (λ found. found ≡ first_number (filter (can_be_seen s lit.now) s.literals)) }
    {
        let latest = self.latest.as_slice();
        let found = first_seen(alloc, &self.lists, latest, bound, cases, lit)?;
        Ok(found)
    }

    /// That the arguments differ from those of each literal of the other sign, where neither speaks of a universal variable.
    #[tactic(auto, using(crate::proofs::AskLemmas::opposites_of))]
    pub fn opposites(
        &self,
        alloc: Global,
        bound: &Bound,
        variables: &Variables,
        lit: &Lit,
    ) -> Result<Cons, Memory>
        ensures { (s : State) → s.literals ≡ self.now.now → s.bound ≡ bound.now.now → s.made ≡ variables.now.now → IfOk result (λ made. made ≡ map (differing lit.now) (opposites s lit.now)) }
    {
        let latest = self.latest.as_slice();
        let first = None;
        let call = Called { bound, lit, first };
        let made = apart_from_opposites(alloc, &self.lists, latest, variables, &call)?;
        Ok(made)
    }

    /// The same without literals whose first arguments clash with that of this one, as the bindings read them: in order, what is
    /// left is assumed as all are.
    #[tactic(auto, using(crate::proofs::ApartLemmas::assumed_alike))]
    pub fn unclear_opposites(
        &self,
        alloc: Global,
        bound: &Bound,
        variables: &Variables,
        lit: &Lit,
    ) -> Result<Cons, Memory>
        ensures { (s : State) → s.literals ≡ self.now.now → s.bound ≡ bound.now.now → s.made ≡ variables.now.now → IfOk result (λ made. (sat : List ThisCon → Bool) → assume_all sat made s ≡ assume_all sat (map (differing lit.now) (opposites s lit.now)) s) }
    {
        let latest = self.latest.as_slice();
        let first = first_root(bound, &lit.atom.args);
        let call = Called { bound, lit, first };
        let made = apart_from_opposites(alloc, &self.lists, latest, variables, &call)?;
        Ok(made)
    }

    /// One more literal, inside these cases.
    #[tactic(auto, using(crate::proofs::ZipLemmas::one_more, crate::proofs::ZipLemmas::none_more, crate::proofs::ZipLemmas::literals_length))]
    pub fn open(&mut self, lit: Lit, cases: CaseList) -> Result<(), Memory>
        ensures now { OnOk result (self.new.now ≡ self.old.now ++ entered (length self.old.now) lit cases ∷ []) }
        ensures before { self.new.before ≡ self.old.before }
        ensures unchanged { OnErr result (self.new ≡ self.old) }
    {
        let marks = Marks {
            is_done: false,
            loops: false,
            is_general: false,
        };
        let alloc = cases.allocator();
        let hint = next_hint(alloc, &self.lists, self.latest.as_slice(), &lit)?;
        prepare(
            &mut self.lists,
            &mut self.latest,
            Entry { lit, cases },
            hint,
        )?;
        self.lists.marks.push(marks)?;
        Ok(())
    }

    /// A positive loop leads out of the innermost literal that is open.
    #[tactic(auto, using(crate::proofs::StateLemmas::looped_of))]
    pub fn loops_out(&mut self) -> Result<(), Memory>
        ensures now { (s : State) → s.literals ≡ self.old.now → OnOk result (record s { literals = self.new.now } ≡ marked (ancestors s) s) }
        ensures before { self.new.before ≡ self.old.before }
    {
        let lists = &mut self.lists;
        loop_out(
            lists.entries.as_slice(),
            &mut lists.marks,
            lists.hints.as_slice(),
        )?;
        Ok(())
    }

    /// The innermost literal that is open is done.
    #[tactic(auto, using(crate::proofs::StateLemmas::left_of))]
    pub fn leave_literal(&mut self) -> Result<(), Memory>
        ensures now { (s : State) → s.literals ≡ self.old.now → OnOk result (record s { literals = self.new.now } ≡ leave_literal s) }
        ensures before { self.new.before ≡ self.old.before }
    {
        let lists = &mut self.lists;
        end_last(
            lists.entries.as_slice(),
            &mut lists.marks,
            lists.hints.as_slice(),
        )?;
        note_done(
            lists.entries.as_slice(),
            lists.marks.as_slice(),
            &mut lists.hints,
        )?;
        Ok(())
    }

    /// A case with these universal variables ends: each literal stands as the bindings read it now.
    #[tactic(auto, using(crate::proofs::StateLemmas::kept_of))]
    pub fn end_case(
        &mut self,
        alloc: Global,
        bound: &Bound,
        universals: &[u64],
    ) -> Result<(), Memory>
        ensures now { (s : State) → s.literals ≡ self.old.now → s.bound ≡ bound.now.now → OnOk result (self.new.now ≡ map (kept_literal s universals.now) s.literals) }
        ensures before { self.new.before ≡ self.old.before }
    {
        self.lists.raise(bound)?;
        end_each(alloc, &mut self.lists, bound, universals)?;
        note_each(alloc, &mut self.lists)?;
        Ok(())
    }

    /// Whether there is a mark.
    #[tactic(auto, using(crate::proofs::ZipLemmas::marked_each))]
    pub fn is_marked(&self) -> bool
        ensures { result ≡ is_marked self.now.before }
    {
        self.lists.marks.is_marked()
    }

    /// Marks the literals as they are now.
    pub fn mark(&mut self) -> Result<(), Memory>
        ensures now { self.new.now ≡ self.old.now }
        ensures before { OnOk result (self.new.before ≡ self.old.now ∷ self.old.before) }
        ensures unchanged { OnErr result (self.new ≡ self.old) }
    {
        self.lists.mark()?;
        if self.latest.mark().is_err() {
            self.lists.leave();
            return Err(Memory);
        }
        Ok(())
    }

    /// Makes the literals again what they were at the latest mark, which is taken away; without a mark they stay as they are.
    /// No memory is taken.
    #[tactic(auto, using(crate::proofs::ZipLemmas::now_left, crate::proofs::ZipLemmas::before_left, crate::proofs::ZipLemmas::fit_now, crate::proofs::ZipLemmas::fit_before))]
    pub fn leave(&mut self)
        ensures now { self.new.now ≡ latest self.old.now self.old.before }
        ensures before { self.new.before ≡ earlier self.old.before }
    {
        self.lists.leave();
        self.latest.leave();
    }
}

/// A copy of the literal of this number.
fn literal_copy(
    alloc: Global,
    number: usize,
    entry: &Entry,
    marks: Marks,
) -> Result<Literal, Memory>
    ensures { IfOk result (λ made. made ≡ literal_of number entry.now marks) }
{
    Ok(Literal {
        number: number as u64,
        lit: entry.lit.copy(alloc)?,
        cases: entry.cases.copy(alloc)?,
        is_done: marks.is_done,
        loops: marks.loops,
        is_general: marks.is_general,
    })
}

/// Copies of the literals.
#[tactic(auto, using(crate::proofs::ZipLemmas::copied_more, crate::proofs::ZipLemmas::all_copied))]
fn copies(alloc: Global, entries: &[Entry], marks: &[Marks]) -> Result<Literals, Memory>
    requires { length marks.now ≤ length entries.now }
    ensures { IfOk result (λ made. made ≡ literals_from 0 entries.now marks.now) }
{
    let mut made = Literals::new(alloc);
    let mut at = 0;
    'literals: while at < marks.len() {
        let literal = literal_copy(alloc, at, entry_at(entries, at), marks_at(marks, at))?;
        made.push(literal)?;
        at += 1;
    }
    Ok(made)
}
