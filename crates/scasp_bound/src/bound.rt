//! Bindings in order, which can be taken out and undone, and found by variable.
ghost use Rattle.std.specs.Prelude.{◌≡◌, ◌≤◌, [], ◌∷◌, ◌++◌, map, option_copied, IfOk, MatchOption, OnOk, OnErr, ⊤};
ghost use Rattle.scasp_syntax.specs.Same.{same_tms};
ghost use Rattle.scasp_syntax.specs.Values.{all_under, under};
ghost use Rattle.scasp_syntax.specs.View.{tm_of};
ghost use Rattle.scasp_unify.specs.Solving.{sub_of};
ghost use Rattle.scasp_unify.specs.Unification.{term_vars, terms_vars};
ghost use Rattle.scasp_trail.specs.Past.{earlier, is_marked, latest};
ghost use Rattle.scasp_bound.specs.Bounds.{ReadsDown, among, as_variable, bound_in, equation, is_bound_in, root_of, unbound, without};
ghost use Rattle.scasp_bound.specs.Inside.Falls.{Falls};
ghost use Rattle.scasp_bound.specs.Inside.Gaps.{without_unless};

use crate::listing::{copies, push_equations};
use crate::places::{Place, binding_at, first_of, forget, is_among, note, take_out_of};
use crate::reading::{Head, Piece, head_of, resolve_all};
use crate::roots::Root;
use crate::sameness::{Pair, are_same};
use crate::variables::push_vars_of;
use scasp_list::{Memory, Sequence};
use scasp_syntax::{Cons, Term, Terms, VarList};
use scasp_trail::Trailed;
use scasp_unify::Binding;
use std::alloc::Global;
use std::marker::Model;

/// Bindings in the order in which they were made. One that was taken out leaves a gap.
pub struct Bound {
    list: Trailed<Option<Binding>>,
    /// Where the bindings of each variable are.
    places: Trailed<Option<Place>>,
    /// Whether no change has failed since the latest mark: then the places are right.
    is_whole: bool,
    /// A binding to a variable beyond this one is of a later variable. It never falls.
    rise: u64,
}

impl Drop for Bound {
    /// Frees the parts. The crates above call this, and need not prove how each part is freed.
    fn drop(self) {
        let Bound {
            list,
            places,
            is_whole: _,
            rise: _,
        } = self;
        drop(list);
        drop(places);
    }
}

impl Model for Bound {
    ghost use Rattle.scasp_syntax.specs.TmCode.{coded_tms};
    ghost use Rattle.std.specs.Coded.{codes};
    ghost use Rattle.scasp_unify.specs.declared.bindings.Binding.{Binding};
    ghost use Rattle.scasp_trail.specs.Past.{Past};
    ghost use Rattle.scasp_bound.specs.Inside.Gaps.{past_present};
    ghost use Rattle.scasp_bound.specs.Inside.Places.{IsIndexed};

    ghost Value = { Past Binding };

    ghost coded = { Prim.hlevel (codes, coded_tms) };

    ghost view = { λ b. past_present b.list };

    ghost invariant = { λ b. IsIndexed b.is_whole b.list b.places b.rise };
}

impl Bound {
    /// No bindings and no mark; no memory is taken.
    pub fn new(alloc: Global) -> Bound
        ensures { result ≡ record { now = []; before = [] } }
    {
        Bound {
            list: Trailed::new(alloc),
            places: Trailed::new(alloc),
            is_whole: true,
            rise: 0,
        }
    }

    /// The first binding of the variable.
    #[tactic(auto, using(crate::proofs::BoundLemmas::found_there, crate::proofs::BoundLemmas::found_none))]
    pub fn find(&self, x: u64) -> Option<&Binding>
        ensures { option_copied result ≡ bound_in x self.now.now }
    {
        let items = self.list.as_slice();
        match first_of(items, self.places.as_slice(), self.is_whole, x) {
            Some(at) => binding_at(items, at),
            None => None,
        }
    }

    /// Whether the variable is bound.
    #[tactic(auto, using(crate::proofs::BoundLemmas::one_bound, crate::proofs::BoundLemmas::none_bound))]
    pub fn is_bound(&self, x: u64) -> bool
        ensures { result ≡ is_bound_in self.now.now x }
    {
        match self.find(x) {
            Some(_) => true,
            None => false,
        }
    }

    /// Puts the binding behind the others.
    #[tactic(auto, using(crate::proofs::BoundLemmas::present_more, crate::proofs::PlaceLemmas::right_more, crate::proofs::FallLemmas::falling_more, crate::proofs::FallLemmas::each_beyond))]
    pub fn push(&mut self, binding: Binding) -> Result<(), Memory>
        ensures now { OnOk result (self.new.now ≡ self.old.now ++ binding ∷ []) }
        ensures before { self.new.before ≡ self.old.before }
    {
        let was_whole = self.is_whole;
        self.is_whole = false;
        let x = binding.x;
        let rise = risen(self.rise, &binding);
        let at = self.list.len();
        self.list.push(Some(binding))?;
        note(&mut self.places, x, at)?;
        self.rise = rise;
        self.is_whole = was_whole;
        Ok(())
    }

    /// Takes the bindings of the variable out.
    #[tactic(auto, using(crate::proofs::BoundLemmas::present_gaps, crate::proofs::PlaceLemmas::right_gaps, crate::proofs::FallLemmas::falling_gaps))]
    pub fn take_out(&mut self, x: u64) -> Result<(), Memory>
        ensures now { OnOk result (self.new.now ≡ without x self.old.now) }
        ensures before { self.new.before ≡ self.old.before }
    {
        let was_whole = self.is_whole;
        self.is_whole = false;
        take_out_of(&mut self.list, self.places.as_slice(), was_whole, x)?;
        forget(&mut self.places, x)?;
        self.is_whole = was_whole;
        Ok(())
    }

    /// Takes the bindings of the variables of a list out, but for those that are also in another one.
    pub fn end_case(&mut self, universals: &[u64], but: &[u64]) -> Result<(), Memory>
        ensures now { OnOk result (self.new.now ≡ unbound universals.now but.now self.old.now) }
        ensures before { self.new.before ≡ self.old.before }
    {
        let mut at = 0;
        while at < universals.len() {
            self.take_out_unless(universals[at], but)?;
            at += 1;
        }
        Ok(())
    }

    /// Takes the bindings of the variable out, unless it is in the list.
    fn take_out_unless(&mut self, x: u64, but: &[u64]) -> Result<(), Memory>
        ensures now { OnOk result (self.new.now ≡ without_unless (among x but.now) x self.old.now) }
        ensures before { self.new.before ≡ self.old.before }
    {
        if is_among(x, but) {
            return Ok(());
        }
        self.take_out(x)?;
        Ok(())
    }

    /// A variable beyond which each is read from itself and later ones alone, if one is known. It need not be the earliest.
    #[tactic(auto, using(crate::proofs::FallLemmas::whole_down))]
    pub fn rise(&self) -> Option<u64>
        ensures { MatchOption result ⊤ (λ n. ReadsDown n self.now.now) }
    {
        if self.is_whole { Some(self.rise) } else { None }
    }

    /// The variable that the bindings read the term as, if they read it as one.
    #[tactic(auto, using(crate::proofs::FallLemmas::variable_read, crate::proofs::FallLemmas::number_read, crate::proofs::FallLemmas::name_read))]
    pub fn variable_of(&self, term: &Term) -> Option<u64>
        ensures { result ≡ as_variable (under (sub_of self.now.now) (tm_of term.now)) }
    {
        let items = self.list.as_slice();
        let places = self.places.as_slice();
        match head_of(items, places, self.is_whole, 0, term) {
            Head::Var(x) => Some(x),
            Head::Num(_) | Head::Name(..) => None,
        }
    }

    /// How the term begins, as the bindings read it. Nothing is copied.
    #[tactic(auto, using(crate::proofs::RootLemmas::variable_begins, crate::proofs::RootLemmas::number_begins, crate::proofs::RootLemmas::name_begins))]
    pub fn root_of(&self, term: &Term) -> Root
        ensures { result ≡ root_of (under (sub_of self.now.now) (tm_of term.now)) }
    {
        let items = self.list.as_slice();
        let places = self.places.as_slice();
        match head_of(items, places, self.is_whole, 0, term) {
            Head::Var(x) => Root::Var(x),
            Head::Num(value) => Root::Num(value),
            Head::Name(name, _) => Root::Name(name),
        }
    }

    /// The term as the bindings read it, of which each may speak of variables that later ones bind. They are followed by
    /// variable.
    pub fn read(&self, alloc: Global, term: &Term) -> Result<Term, Memory>
        ensures { IfOk result (λ made. tm_of made ≡ under (sub_of self.now.now) (tm_of term.now)) }
    {
        let items = self.list.as_slice();
        let places = self.places.as_slice();
        match head_of(items, places, self.is_whole, 0, term) {
            Head::Var(x) => Ok(Term::Var(x)),
            Head::Num(value) => Ok(Term::Num(value)),
            Head::Name(name, args) => {
                let read = resolve_all(alloc, items, places, self.is_whole, args.from, args.terms)?;
                Ok(Term::App(name, read))
            }
        }
    }

    /// The terms as the bindings read them, as `read` does.
    pub fn read_terms(&self, alloc: Global, terms: &Terms) -> Result<Terms, Memory>
        ensures { IfOk result (λ made. made ≡ all_under (sub_of self.now.now) terms.now) }
    {
        let items = self.list.as_slice();
        let places = self.places.as_slice();
        resolve_all(alloc, items, places, self.is_whole, 0, terms.as_slice())
    }

    /// Puts the variables of the term, as the bindings read it, behind those found before, each as often as it stands there.
    pub fn push_vars(&self, alloc: Global, term: &Term, found: &mut VarList) -> Result<(), Memory>
        ensures { OnOk result (found.new ≡ found.old ++ term_vars (under (sub_of self.now.now) (tm_of term.now))) }
    {
        let items = self.list.as_slice();
        let places = self.places.as_slice();
        match head_of(items, places, self.is_whole, 0, term) {
            Head::Var(x) => found.push(x),
            Head::Num(_) => Ok(()),
            Head::Name(_, args) => push_vars_of(alloc, items, places, self.is_whole, args, found),
        }
    }

    /// Puts the variables of the terms, as the bindings read them, behind those found before.
    pub fn push_all_vars(
        &self,
        alloc: Global,
        terms: &Terms,
        found: &mut VarList,
    ) -> Result<(), Memory>
        ensures { OnOk result (found.new ≡ found.old ++ terms_vars (all_under (sub_of self.now.now) terms.now)) }
    {
        let items = self.list.as_slice();
        let places = self.places.as_slice();
        let piece = Piece {
            terms: terms.as_slice(),
            from: 0,
        };
        push_vars_of(alloc, items, places, self.is_whole, piece, found)
    }

    /// Whether the bindings read both lists of terms as the same one. No term is made.
    pub fn same_terms(&self, alloc: Global, first: &Terms, second: &Terms) -> Result<bool, Memory>
        ensures { IfOk result (λ same. same ≡ same_tms (all_under (sub_of self.now.now) first.now) (all_under (sub_of self.now.now) second.now)) }
    {
        let pair = Pair {
            left: Piece {
                terms: first.as_slice(),
                from: 0,
            },
            right: Piece {
                terms: second.as_slice(),
                from: 0,
            },
        };
        let items = self.list.as_slice();
        are_same(alloc, items, self.places.as_slice(), self.is_whole, pair)
    }

    /// Copies of the bindings, in order.
    pub fn bindings(&self, alloc: Global) -> Result<Sequence<Binding>, Memory>
        ensures { IfOk result (λ made. made ≡ self.now.now) }
    {
        copies(alloc, self.list.as_slice())
    }

    /// Puts the bindings, as equations, behind the constraints of a list.
    pub fn push_equations(&self, alloc: Global, list: &mut Cons) -> Result<(), Memory>
        ensures { OnOk result (list.new ≡ list.old ++ map equation self.now.now) }
    {
        push_equations(alloc, self.list.as_slice(), list)
    }

    /// Whether there is a mark.
    #[tactic(auto, using(crate::proofs::PlaceLemmas::still_marked))]
    pub fn is_marked(&self) -> bool
        ensures { result ≡ is_marked self.now.before }
    {
        self.list.is_marked()
    }

    /// Marks the bindings as they are now; after an error of a change there is no mark to be had until the next `leave`.
    pub fn mark(&mut self) -> Result<(), Memory>
        ensures now { self.new.now ≡ self.old.now }
        ensures before { OnOk result (self.new.before ≡ self.old.now ∷ self.old.before) }
        ensures unchanged { OnErr result (self.new ≡ self.old) }
    {
        if !self.is_whole {
            return Err(Memory);
        }
        self.list.mark()?;
        if self.places.mark().is_err() {
            self.list.leave();
            return Err(Memory);
        }
        Ok(())
    }

    /// Makes the bindings again what they were at the latest mark, which is taken away; without a mark they stay as they are.
    /// No memory is taken.
    #[tactic(auto, using(crate::proofs::PlaceLemmas::present_latest, crate::proofs::PlaceLemmas::present_earlier))]
    pub fn leave(&mut self)
        ensures now { self.new.now ≡ latest self.old.now self.old.before }
        ensures before { self.new.before ≡ earlier self.old.before }
    {
        let was_marked = self.list.is_marked();
        self.list.leave();
        self.places.leave();
        self.is_whole = self.is_whole || was_marked;
    }
}

/// What `rise` is behind one more binding.
#[tactic(auto, using(crate::proofs::FallLemmas::to_later, crate::proofs::FallLemmas::to_early, crate::proofs::FallLemmas::to_number, crate::proofs::FallLemmas::to_name))]
fn risen(rise: u64, binding: &Binding) -> u64
    ensures more { rise ≤ result }
    ensures falls { Falls result binding.now }
{
    match &binding.term {
        Term::Var(y) => {
            if *y <= binding.x {
                rise
            } else if rise < *y {
                *y
            } else {
                rise
            }
        }
        Term::Num(_) | Term::App(..) => rise,
    }
}
