//! Bindings of variables, which can be undone.
ghost use Rattle.std.specs.Prelude.{◌≡◌, ◌≤◌, ◌<◌, ◌∷◌, ◌++◌, [], true, None, Some, length, slice_get, take, option_map, is_some, OnOk, OnErr, IfOk};
ghost use Rattle.scasp_syntax.specs.Tm.{Tm};
ghost use Rattle.scasp_syntax.specs.View.{tm_of};
ghost use Rattle.scasp_syntax.specs.WellFormed.{is_below};
ghost use Rattle.scasp_unify.specs.Parts.{occurs};
ghost use Rattle.scasp_bind.specs.Binds.{CanBind, Binds};
ghost use Rattle.scasp_bind.specs.Depths.{lowest};
ghost use Rattle.scasp_bind.specs.Kept.{Continues, updated, variables_at, with_term};
ghost use Rattle.scasp_bind.specs.Resolving.{Resolves, binding};

use crate::binding::bind_lowered;
use crate::depths::lower;
use crate::occurrences::occurs_resolved;
use crate::resolving::resolved;
use crate::trailed::Trailed;
use crate::variable::{BindMark, Sort};
use crate::walks::is_known;
use scasp_list::Memory;
use scasp_syntax::{Term, copy};
use std::alloc::Global;
use std::marker::Model;

/// Variables with their kinds and depths, and what they are bound to, without a cycle. What each change has overwritten
/// is kept, so that all changes since a mark can be undone.
#[derive(Drop)]
pub struct Bindings {
    store: Trailed,
    alloc: Global,
}

impl Model for Bindings {
    ghost use Rattle.scasp_syntax.specs.TmCode.{coded_tms};
    ghost use Rattle.std.specs.Coded.{codes};
    ghost use Rattle.scasp_bind.specs.Kept.{Kept};
    ghost use Rattle.scasp_bind.specs.Inside.Soundness.{IsSound};

    ghost Value = { Kept };

    ghost coded = { Prim.hlevel (codes, coded_tms) };

    ghost view = { λ b. b.store };

    ghost invariant = { λ b. IsSound b.store };
}

impl Bindings {
    /// No variables; no memory is taken.
    pub fn new(alloc: Global) -> Bindings
        ensures variables { result.variables ≡ [] }
        ensures changes { result.changes ≡ [] }
    {
        Bindings {
            store: Trailed::new(alloc),
            alloc,
        }
    }

    /// The number of variables; the variables are the numbers below it.
    pub fn len(&self) -> u64
        ensures { result ≡ length self.now.variables }
    {
        self.store.len()
    }

    /// Whether the variables of the term are variables here, with memory as `resolve`.
    pub fn knows(&self, term: &Term) -> Result<bool, Memory>
        ensures { IfOk result (λ answer. answer ≡ is_below (length self.now.variables) (tm_of term.now)) }
    {
        is_known(self.alloc, self.store.len(), term)
    }

    /// Makes an unbound variable, and gives its number, which is the next one.
    pub fn fresh(&mut self, sort: Sort, depth: u64) -> Result<u64, Memory>
        ensures number { IfOk result (λ x. x ≡ length self.old.variables) }
        ensures variables { OnOk result (self.new.variables ≡ self.old.variables ++ record { sort = sort; depth = depth; term = None } ∷ []) }
        ensures continues { Continues self.old self.new }
        ensures unchanged { OnErr result (self.new ≡ self.old) }
    {
        self.store.make(sort, depth)
    }

    /// The kind of the variable.
    pub fn sort(&self, x: u64) -> Sort
        requires { x < length self.now.variables }
        ensures { option_map (λ v. v.sort) (slice_get self.now.variables x) ≡ Some result }
    {
        self.store.get(x).sort
    }

    /// The depth of the variable.
    pub fn depth(&self, x: u64) -> u64
        requires { x < length self.now.variables }
        ensures { option_map (λ v. v.depth) (slice_get self.now.variables x) ≡ Some result }
    {
        self.store.get(x).depth
    }

    /// Whether the variable is bound.
    pub fn is_bound(&self, x: u64) -> bool
        requires { x < length self.now.variables }
        ensures { result ≡ is_some (binding self.now.variables x) }
    {
        self.store.get(x).term.is_some()
    }

    /// Lowers the depth of the variable to this one, where it is greater.
    pub fn lower(&mut self, x: u64, depth: u64) -> Result<(), Memory>
        requires { x < length self.old.variables }
        ensures variables { OnOk result (self.new.variables ≡ updated x (lowest depth) self.old.variables) }
        ensures continues { Continues self.old self.new }
        ensures unchanged { OnErr result (self.new ≡ self.old) }
    {
        lower(&mut self.store, x, depth)
    }

    /// Binds the variable to the term, and lowers the depths of the existentials in the term to its depth.
    pub fn bind(&mut self, x: u64, term: &Term) -> Result<(), Memory>
        requires { CanBind self.old x (tm_of term.now) }
        ensures bound { OnOk result (Binds self.old.variables self.new.variables x term.now) }
        ensures continues { Continues self.old self.new }
        ensures unchanged { OnErr result (self.new ≡ self.old) }
    {
        let copied = copy(self.alloc, term)?;
        let count = self.store.change_count();
        if bind_lowered(self.alloc, &mut self.store, x, term, copied).is_err() {
            self.store.take_back(count);
            return Err(Memory);
        }
        Ok(())
    }

    /// Makes the variable unbound. Every other binding stays as it was made, and so does every depth.
    pub fn unbind(&mut self, x: u64) -> Result<(), Memory>
        requires { x < length self.old.variables }
        ensures variables { OnOk result (self.new.variables ≡ updated x (with_term None) self.old.variables) }
        ensures continues { Continues self.old self.new }
        ensures unchanged { OnErr result (self.new ≡ self.old) }
    {
        self.store.set_term(x, None)
    }

    /// The term with its variables replaced by what they are bound to, until none is bound. It takes memory for what is
    /// still to be done, and no machine stack.
    pub fn resolve(&self, term: &Term) -> Result<Term, Memory>
        requires { is_below (length self.now.variables) (tm_of term.now) ≡ true }
        ensures { IfOk result (λ made. Resolves (binding self.now.variables) (tm_of term.now) (tm_of made)) }
    {
        resolved(self.alloc, &self.store, term)
    }

    /// Whether the variable stands in the resolved term, with memory as `resolve`; nothing is copied.
    pub fn occurs(&self, x: u64, term: &Term) -> Result<bool, Memory>
        requires { is_below (length self.now.variables) (tm_of term.now) ≡ true }
        ensures { IfOk result (λ found. (u : Tm) → Resolves (binding self.now.variables) (tm_of term.now) u → found ≡ occurs x u) }
    {
        occurs_resolved(self.alloc, &self.store, x, term)
    }

    /// The present time.
    pub fn mark(&self) -> BindMark
        ensures { result ≡ length self.now.changes }
    {
        BindMark::after(self.store.change_count())
    }

    /// Undoes all changes since the mark. No memory is taken, and the mark can be undone to again.
    pub fn undo(&mut self, mark: BindMark)
        ensures variables { self.new.variables ≡ variables_at mark self.old }
        ensures changes { self.new.changes ≡ take mark self.old.changes }
        ensures continues { Continues self.new self.old }
    {
        let count = mark.change_count();
        if count < self.store.change_count() {
            self.store.take_back(count);
        }
    }

    /// A law: the bindings have no cycle, so each term resolves.
    pub fn have_no_cycle(&self)
        ensures { (t : Tm) → (u : Tm) × Resolves (binding self.now.variables) t u }
    {
        let _store = &self.store;
    }
}
