//! The store.
ghost use Rattle.std.specs.Prelude.{◌≡◌, ◌↔◌, ◌⊎◌, ◌<◌, ◌-◌, [], ◌∷◌, ◌++◌, List, None, Some, true, drop, length, option_map, slice_get, IfOk, IsTrue, OnErr, OnOk};
ghost use Rattle.scasp_bind.specs.Depths.{lowest};
ghost use Rattle.scasp_hint.specs.Finding.{overflows_in};
ghost use Rattle.scasp_syntax.specs.Constraints.{Entails, Sat};
ghost use Rattle.scasp_syntax.specs.Values.{under};
ghost use Rattle.scasp_syntax.specs.View.{tm_of};
ghost use Rattle.scasp_unify.specs.Negations.{is_con_below, negated};
ghost use Rattle.scasp_unify.specs.Resolver.{resolver};
ghost use Rattle.scasp_unify.specs.Sorted.{Sorted};
ghost use Rattle.scasp_constraint_store.specs.Asked.{AfterAssumed, assumed, is_tested};
ghost use Rattle.scasp_constraint_store.specs.Held.{Content, after, times, times_at, with_constraint, with_depth_at, with_variable, without};
ghost use Rattle.scasp_constraint_store.specs.Sampled.{sampled};

use crate::asking::{Assumed, StoreErr, passes_with};
use crate::binding::bindings_of;
use crate::change::{Change, ListChange, restore};
use crate::knowing::knows;
use crate::lowering::lower;
use crate::retiring::kept;
use crate::sampling::sample_by;
use scasp_bind::{Bindings, Sort};
use scasp_list::Memory;
use scasp_search_terms::forms::negated;
use scasp_search_terms::reading::read;
use scasp_syntax::{Con, DeepCopy, PlaceList, Term, Terms, VarList};
use scasp_unify::resolver_of;
use std::alloc::Global;
use std::marker::Model;
use std::mem;

/// A time to go back to, of the store that gave it: how many changes there were. To another store it is the time of as
/// many changes of its own; where there were not so many, as there are not after an undo to an earlier mark, it is now.
#[derive(Clone, Copy, Debug, PartialEq, Eq)]
pub struct StoreMark {
    changes: u64,
}

impl Model for StoreMark {
    ghost use Rattle.std.specs.Prelude.{ℕ};

    ghost Value = { ℕ };

    ghost view = { λ m. m.changes };

    ghost inverse = { λ n. record { changes = n } };
}

impl StoreMark {
    /// How many changes there were.
    fn change_count(self) -> u64
        ensures { result ≡ self }
    {
        self.changes
    }
}

/// A list of constraints, and variables with their kinds and depths.
#[derive(Drop)]
pub struct Store {
    variables: Bindings,
    list: Vec<Con>,
    /// What each change has overwritten, the latest last.
    changes: Vec<Change>,
    alloc: Global,
}

impl Model for Store {
    ghost use Rattle.std.specs.Prelude.{length, reverse};
    ghost use Rattle.std.specs.Coded.{codes};
    ghost use Rattle.scasp_syntax.specs.TmCode.{coded_tms};
    ghost use Rattle.scasp_constraint_store.specs.Held.{Held};
    ghost use Rattle.scasp_constraint_store.specs.Inside.Undoing.{IsKept, held};

    ghost Value = { Held };

    ghost coded = { Prim.hlevel (codes, coded_tms) };

    ghost view = { λ s. held s.variables s.list.items s.changes.items };

    ghost invariant = { λ s. IsKept s.variables s.list.items s.changes.items };
}

impl Store {
    /// No variables and no constraints; no memory is taken.
    pub fn new(alloc: Global) -> Store
        ensures { result ≡ record { now = record { variables = []; list = [] }; before = [] } }
    {
        Store {
            variables: Bindings::new(alloc),
            list: Vec::new(alloc),
            changes: Vec::new(alloc),
            alloc,
        }
    }

    /// How many constraints there are.
    pub fn len(&self) -> u64
        ensures { result ≡ length self.now.now.list }
    {
        self.list.len() as u64
    }

    /// Whether the variables of the constraint are variables here.
    pub fn knows(&self, constraint: &Con) -> Result<bool, Memory>
        ensures { IfOk result (λ answer. answer ≡ is_con_below (length self.now.now.variables) constraint.now) }
    {
        knows(&self.variables, constraint)
    }

    /// The kind of the variable.
    pub fn sort(&self, x: u64) -> Sort
        requires { x < length self.now.now.variables }
        ensures { option_map (λ v. v.sort) (slice_get self.now.now.variables x) ≡ Some result }
    {
        self.variables.sort(x)
    }

    /// The depth of the variable.
    pub fn depth(&self, x: u64) -> u64
        requires { x < length self.now.now.variables }
        ensures { option_map (λ v. v.depth) (slice_get self.now.now.variables x) ≡ Some result }
    {
        self.variables.depth(x)
    }

    /// Makes a variable, and gives its number, which is the next one.
    pub fn fresh(&mut self, sort: Sort, depth: u64) -> Result<u64, Memory>
        ensures number { IfOk result (λ x. x ≡ length self.old.now.variables) }
        ensures changed { OnOk result (self.new ≡ after self.old (with_variable sort depth self.old.now)) }
        ensures unchanged { OnErr result (self.new ≡ self.old) }
    {
        self.changes.reserve(1)?;
        let before = self.variables.mark();
        let x = self.variables.fresh(sort, depth)?;
        self.changes.push_reserved(Change {
            list: ListChange::Kept,
            before,
        });
        Ok(x)
    }

    /// Lowers the depth of the variable to this one, where it is greater.
    pub fn lower(&mut self, x: u64, depth: u64) -> Result<(), Memory>
        requires { x < length self.old.now.variables }
        ensures changed { OnOk result (self.new ≡ after self.old (with_depth_at x (lowest depth) self.old.now)) }
        ensures unchanged { OnErr result (self.new ≡ self.old) }
    {
        self.changes.reserve(1)?;
        let before = self.variables.mark();
        self.variables.lower(x, depth)?;
        self.changes.push_reserved(Change {
            list: ListChange::Kept,
            before,
        });
        Ok(())
    }

    /// Puts the constraint behind the others, and lowers the depths that its bindings lower.
    pub fn put(&mut self, constraint: &Con) -> Result<(), Memory>
        requires { is_con_below (length self.old.now.variables) constraint.now ≡ true }
        ensures changed { OnOk result (self.new ≡ after self.old (with_constraint constraint.now self.old.now)) }
        ensures unchanged { OnErr result (self.new ≡ self.old) }
    {
        let bindings = bindings_of(self.alloc, self.list.as_slice(), constraint)?;
        let copied = constraint.copy(self.alloc)?;
        self.list.reserve(1)?;
        self.changes.reserve(1)?;
        let before = self.variables.mark();
        lower(self.alloc, &mut self.variables, bindings.as_slice())?;
        self.list.push_reserved(copied);
        self.changes.push_reserved(Change {
            list: ListChange::Put,
            before,
        });
        Ok(())
    }

    /// Takes the constraints at these places out of the list. The others keep their order, and every depth stays as it is.
    pub fn retire(&mut self, places: &PlaceList) -> Result<(), Memory>
        ensures changed { OnOk result (self.new ≡ after self.old (without places.now self.old.now)) }
        ensures unchanged { OnErr result (self.new ≡ self.old) }
    {
        let kept = kept(self.alloc, self.list.as_slice(), places.as_slice())?;
        self.changes.reserve(1)?;
        let before = self.variables.mark();
        let old = mem::replace(&mut self.list, kept);
        self.changes.push_reserved(Change {
            list: ListChange::Retired(old),
            before,
        });
        Ok(())
    }

    /// Whether the list entails the constraint: the list with the negation of the constraint is asked, and no other list.
    pub fn entails(&mut self, constraint: &Con) -> Result<bool, StoreErr>
        requires { is_con_below (length self.old.now.variables) constraint.now ≡ true }
        ensures value { IfOk result (λ answer. answer ≡ is_tested (length self.old.now.variables) self.old.now.list constraint.now) }
        ensures entailed { Sorted self.old.now.list → Sorted (self.old.now.list ++ constraint.now ∷ []) → IfOk result (λ answer. IsTrue answer ↔ Entails self.old.now.list constraint.now) }
        ensures overflow { result ≡ Err StoreErr.Overflow → overflows_in (self.old.now.list ++ negated (length self.old.now.variables) constraint.now ∷ []) ≡ true }
        ensures unchanged { self.new ≡ self.old }
    {
        let negation = negated(self.alloc, self.variables.len(), constraint)?;
        let passes = passes_with(self.alloc, &mut self.list, negation)?;
        Ok(!passes)
    }

    /// Assumes the constraint: it is put behind the others, unless the list entails it or has no valuation with it.
    pub fn assume(&mut self, constraint: &Con) -> Result<Assumed, StoreErr>
        requires { is_con_below (length self.old.now.variables) constraint.now ≡ true }
        ensures value { IfOk result (λ answer. answer ≡ assumed (length self.old.now.variables) self.old.now.list constraint.now) }
        ensures entailed { Sorted self.old.now.list → Sorted (self.old.now.list ++ constraint.now ∷ []) → IfOk result (λ answer. (answer ≡ Assumed.Entailed) ↔ Entails self.old.now.list constraint.now) }
        ensures impossible { Sorted self.old.now.list → Sorted (self.old.now.list ++ constraint.now ∷ []) → IfOk result (λ answer. (answer ≡ Assumed.Impossible) ↔ (¬ Entails self.old.now.list constraint.now) × (¬ Sat (self.old.now.list ++ constraint.now ∷ []))) }
        ensures changed { IfOk result (λ answer. AfterAssumed answer constraint.now self.old self.new) }
        ensures overflow { result ≡ Err StoreErr.Overflow → (overflows_in (self.old.now.list ++ negated (length self.old.now.variables) constraint.now ∷ []) ≡ true) ⊎ (overflows_in (self.old.now.list ++ constraint.now ∷ []) ≡ true) }
        ensures unchanged { OnErr result (self.new ≡ self.old) }
    {
        if self.entails(constraint)? {
            return Ok(Assumed::Entailed);
        }
        let copied = constraint.copy(self.alloc)?;
        if !passes_with(self.alloc, &mut self.list, copied)? {
            return Ok(Assumed::Impossible);
        }
        self.put(constraint)?;
        Ok(Assumed::Added)
    }

    /// Values for these variables, in order: a number for each of which the list says that it is one, by the rows and
    /// disequations of the list, and a name of its own for each other variable, from `fresh` on. Overflow exactly where the
    /// equations of the list cannot replace a row in the range of the numbers, or where the arithmetic of the sample overflows.
    pub fn sample(&mut self, order: &VarList, fresh: u64) -> Result<Terms, StoreErr>
        ensures value { IfOk result (λ made. sampled fresh order.now self.old.now.list ≡ Some made) }
        ensures overflow { result ≡ Err StoreErr.Overflow → sampled fresh order.now self.old.now.list ≡ None }
        ensures unchanged { self.new ≡ self.old }
    {
        sample_by(self.alloc, fresh, order, self.list.as_slice())
    }

    /// The term under the bindings that the equations of the list make.
    pub fn resolve(&self, term: &Term) -> Result<Term, Memory>
        ensures { IfOk result (λ made. tm_of made ≡ under (resolver self.now.now.list) (tm_of term.now)) }
    {
        let resolver = resolver_of(self.alloc, self.list.as_slice())?;
        read(self.alloc, term, resolver.bindings.as_slice())
    }

    /// The present time. Whatever is changed after it, `undo` gives back just what there is now.
    #[tactic(auto, using(crate::proofs::UndoLemmas::given_back))]
    pub fn mark(&self) -> StoreMark
        ensures time { result ≡ length self.now.before }
        ensures given_back { (later : List Content) → drop (length (later ++ self.now.before) - result) (later ++ times self.now) ≡ times self.now }
    {
        StoreMark {
            changes: self.change_count(),
        }
    }

    /// Undoes all changes since the mark. No memory is taken, and the mark can be undone to again.
    #[tactic(auto, using(crate::proofs::UndoLemmas::one_back, crate::proofs::UndoLemmas::at_now))]
    pub fn undo(&mut self, mark: StoreMark)
        ensures { times self.new ≡ times_at mark self.old }
    {
        let count = mark.change_count();
        while self.change_count() > count {
            self.take_back_latest();
        }
    }

    /// How many changes there were.
    fn change_count(&self) -> u64
        ensures { result ≡ length self.now.before }
    {
        self.changes.len() as u64
    }

    /// Undoes the latest change.
    fn take_back_latest(&mut self)
        requires { 0 < length self.old.before }
        ensures { self.old.before ≡ times self.new }
    {
        if let Some(change) = self.changes.pop() {
            let Change { list, before } = change;
            restore(&mut self.list, list);
            self.variables.undo(before);
        }
    }
}
