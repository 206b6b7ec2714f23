//! Bindings and given constraints.
ghost use Rattle.std.specs.Prelude.{◌≡◌, [], ◌∷◌, ◌++◌, ◌&&◌, IfOk, IfSome, OnErr, OnOk, false, true};
ghost use Rattle.scasp_bound.specs.Bounds.{unbound};
ghost use Rattle.scasp_hint.specs.Satisfying.{sat};
ghost use Rattle.scasp_search_constraints.specs.Assuming.Taken.{Gives};
ghost use Rattle.scasp_store.specs.Held.{list_with};
ghost use Rattle.scasp_trail.specs.Past.{earlier, is_marked, latest};

use crate::asked::{answer_known, regain};
use crate::behind::{Taken, bind, end_case};
use crate::opening::is_new;
use crate::rest::{Known, Rest};
use scasp_bound::Bound;
use scasp_given::Given;
use scasp_list::Memory;
use scasp_search_constraints::{SearchErr, passes};
use scasp_search_terms::regions::push_copies;
use scasp_syntax::{Con, Cons, Term};
use scasp_unify::Binding;
use std::alloc::Global;
use std::marker::Model;

/// What the variables of a search stand for, and what is given of those that stand for nothing yet.
pub struct Store {
    pub(crate) bound: Bound,
    pub(crate) given: Given,
    pub(crate) rest: Rest,
    /// Whether each binding was of an unbound variable, to a term of unbound variables, so that none leads back to itself.
    pub(crate) is_solved: bool,
    pub(crate) known: Known,
}

impl Drop for Store {
    /// Frees the parts. The crates above call this, and need not prove how each part is freed.
    fn drop(self) {
        let Store {
            bound,
            given,
            rest,
            is_solved: _,
            known,
        } = self;
        drop(bound);
        drop(given);
        drop(rest);
        drop(known);
    }
}

impl Model for Store {
    ghost use Rattle.scasp_syntax.specs.TmCode.{coded_tms};
    ghost use Rattle.std.specs.Coded.{codes};
    ghost use Rattle.scasp_store.specs.Held.{Held};
    ghost use Rattle.scasp_store.specs.Inside.Open.{IsKept};

    ghost Value = { Held };

    ghost coded = { Prim.hlevel (codes, coded_tms) };

    ghost view = { λ s. record { bound = s.bound; given = s.given } };

    ghost invariant = { λ s. IsKept s.is_solved s.known s.bound s.given s.rest };
}

impl Store {
    /// No bindings, no constraints and no mark; no memory is taken.
    pub fn new(alloc: Global) -> Store
        ensures bound { result.bound ≡ record { now = []; before = [] } }
        ensures given { result.given ≡ record { now = []; before = [] } }
    {
        Store {
            bound: Bound::new(alloc),
            given: Given::new(alloc),
            rest: Rest::new(alloc),
            is_solved: true,
            known: Known::Read,
        }
    }

    /// The bindings.
    pub fn bound(&self) -> &Bound
        ensures { result.now ≡ self.now.bound }
    {
        &self.bound
    }

    /// The given constraints.
    pub fn given(&self) -> &[Con]
        ensures { result.now ≡ self.now.given.now }
    {
        self.given.as_slice()
    }

    /// The variable is bound to the term.
    #[tactic(auto, using(crate::proofs::KeepLemmas::kept_bound))]
    pub fn bind(&mut self, alloc: Global, x: u64, term: Term) -> Result<(), Memory>
        ensures bound { OnOk result (self.new.bound.now ≡ self.old.bound.now ++ record { x = x; term = term } ∷ []) }
        ensures given { self.new.given ≡ self.old.given }
        ensures before { self.new.bound.before ≡ self.old.bound.before }
    {
        let was = self.known;
        let was_solved = self.is_solved;
        self.known = Known::Nothing;
        let count = self.given.as_slice().len();
        let binding = Binding { x, term };
        let is_new = is_new(alloc, &self.bound, &binding)?;
        let known = bind(alloc, was, &mut self.bound, count, &mut self.rest, binding)?;
        self.is_solved = was_solved && is_new;
        self.known = known;
        Ok(())
    }

    /// Takes the bindings of the variables of a list out, but for those that are also in another one.
    #[tactic(auto, using(crate::proofs::KeepLemmas::kept_changed))]
    pub fn end_case(&mut self, alloc: Global, universals: &[u64], but: &[u64]) -> Result<(), Memory>
        ensures bound { OnOk result (self.new.bound.now ≡ unbound universals.now but.now self.old.bound.now) }
        ensures given { self.new.given ≡ self.old.given }
        ensures before { self.new.bound.before ≡ self.old.bound.before }
    {
        let was = self.known;
        self.known = Known::Nothing;
        let count = self.given.as_slice().len();
        let taken = Taken { universals, but };
        self.known = end_case(alloc, was, &mut self.bound, count, &mut self.rest, taken)?;
        Ok(())
    }

    /// The constraint is given from now on.
    #[tactic(auto, using(crate::proofs::KeepLemmas::kept_given))]
    pub fn give(&mut self, constraint: Con) -> Result<(), Memory>
        ensures given { OnOk result (self.new.given.now ≡ self.old.given.now ++ constraint ∷ []) }
        ensures bound { self.new.bound ≡ self.old.bound }
        ensures before { self.new.given.before ≡ self.old.given.before }
    {
        let was = self.known;
        self.known = Known::Nothing;
        let place = self.given.as_slice().len();
        self.given.give(constraint)?;
        self.rest.places.push(place)?;
        self.known = was;
        Ok(())
    }

    /// The bindings as equations, the given constraints, and then these.
    fn list(&self, alloc: Global, more: &[Con]) -> Result<Cons, Memory>
        ensures { IfOk result (λ list. list ≡ list_with self.now more.now) }
    {
        let mut list = Cons::new(alloc);
        self.bound.push_equations(alloc, &mut list)?;
        push_copies(alloc, self.given.as_slice(), &mut list)?;
        push_copies(alloc, more, &mut list)?;
        Ok(list)
    }

    /// Whether what is held has a valuation with these constraints, by what is known; None where the whole list is to be asked.
    #[tactic(auto, using(crate::proofs::KeepLemmas::kept_changed))]
    fn answer(&mut self, alloc: Global, more: &[Con]) -> Result<Option<bool>, Memory>
        ensures answer { IfOk result (λ found. IfSome found (λ answer. answer ≡ sat (list_with self.old more.now))) }
        ensures same { self.new ≡ self.old }
    {
        if !self.is_solved {
            return Ok(None);
        }
        let was = self.known;
        self.known = Known::Nothing;
        let given = self.given.as_slice();
        let found = answer_known(alloc, was, &self.bound, given, &mut self.rest, more)?;
        self.known = was;
        Ok(found)
    }

    /// Whether the bindings, as equations, and the given constraints have a valuation together with these. Overflow only
    /// where the arithmetic of that list overflows.
    pub fn passes(&mut self, alloc: Global, more: &[Con]) -> Result<bool, SearchErr>
        ensures answer { Gives result (sat (list_with self.old more.now)) (list_with self.old more.now ∷ []) }
        ensures same { self.new ≡ self.old }
    {
        if let Some(answer) = self.answer(alloc, more)? {
            return Ok(answer);
        }
        let list = self.list(alloc, more)?;
        passes(alloc, list.as_slice())
    }

    /// Whether there is a mark.
    pub fn is_marked(&self) -> bool
        ensures { result ≡ (is_marked self.now.bound.before && is_marked self.now.given.before) }
    {
        self.bound.is_marked() && self.given.is_marked()
    }

    /// Marks what is held; after an error of a change there is no mark to be had until the next `leave`.
    pub fn mark(&mut self, alloc: Global) -> Result<(), Memory>
        ensures bound { self.new.bound.now ≡ self.old.bound.now }
        ensures given { self.new.given.now ≡ self.old.given.now }
        ensures before { OnOk result (self.new.bound.before ≡ self.old.bound.now ∷ self.old.bound.before) }
        ensures given_before { OnOk result (self.new.given.before ≡ self.old.given.now ∷ self.old.given.before) }
        ensures unchanged { OnErr result (self.new ≡ self.old) }
    {
        let was = self.known;
        self.known = Known::Nothing;
        let count = self.given.as_slice().len();
        regain(alloc, was, &self.bound, count, &mut self.rest)?;
        self.known = Known::Read;
        self.bound.mark()?;
        if self.given.mark().is_err() {
            self.bound.leave();
            return Err(Memory);
        }
        if self.rest.mark().is_err() {
            self.bound.leave();
            self.given.leave();
            return Err(Memory);
        }
        Ok(())
    }

    /// Makes what is held again what it was at the latest mark, which is taken away; without a mark it stays as it is. No
    /// memory is taken.
    #[tactic(auto, using(crate::proofs::KeepLemmas::kept_left))]
    pub fn leave(&mut self)
        ensures bound { self.new.bound.now ≡ latest self.old.bound.now self.old.bound.before }
        ensures given { self.new.given.now ≡ latest self.old.given.now self.old.given.before }
        ensures before { self.new.bound.before ≡ earlier self.old.bound.before }
        ensures given_before { self.new.given.before ≡ earlier self.old.given.before }
    {
        let was_marked = self.bound.is_marked();
        self.bound.leave();
        self.given.leave();
        self.rest.leave();
        if was_marked {
            self.known = Known::Read;
        }
    }
}
