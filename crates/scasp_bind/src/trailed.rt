//! Variables with a trail: what each change has overwritten is kept, so that it can be taken back.
ghost use Rattle.std.specs.Prelude.{◌≡◌, ℕ, ◌+◌, ◌-◌, ◌^◌, ◌<◌, ◌≤◌, [], ◌∷◌, ◌++◌, length, drop, take, slice_get, slice_set, Some, OnOk, OnErr, IfOk, option_map};
ghost use Rattle.scasp_bind.specs.Kept.{Kept, updated, with_depth, with_term, taken_back, all_taken_back};
ghost use Rattle.scasp_bind.specs.Inside.Undoing.{CanUndo, Speaks, TakesBack};

use crate::variable::{Change, Sort, Variable};
use scasp_cells::Cells;
use scasp_list::Memory;
use scasp_syntax::Term;
use std::alloc::Global;
use std::marker::Model;

/// The variables by number, and what was overwritten.
#[derive(Drop)]
pub(crate) struct Trailed {
    variables: Cells<Variable>,
    changes: Cells<Change>,
}

impl Model for Trailed {
    ghost use Rattle.scasp_bind.specs.Kept.{Kept};
    ghost use Rattle.scasp_bind.specs.Inside.Undoing.{CanUndo};
    ghost use Rattle.scasp_syntax.specs.TmCode.{coded_tms};
    ghost use Rattle.std.specs.Coded.{codes};

    ghost Value = { Kept };

    ghost coded = { Prim.hlevel (codes, coded_tms) };

    ghost view = { λ t. record { variables = t.variables.items; changes = t.changes.items } };

    ghost invariant = { λ t. CanUndo t.changes.items t.variables.items };
}

impl Trailed {
    /// No variables; no memory is taken.
    pub(crate) fn new(alloc: Global) -> Trailed
        ensures variables { result.variables ≡ [] }
        ensures changes { result.changes ≡ [] }
    {
        Trailed {
            variables: Cells::new(alloc),
            changes: Cells::new(alloc),
        }
    }

    /// The number of variables.
    pub(crate) fn len(&self) -> u64
        ensures { result ≡ length self.now.variables }
    {
        self.variables.len()
    }

    /// The number of changes.
    pub(crate) fn change_count(&self) -> u64
        ensures { result ≡ length self.now.changes }
    {
        self.changes.len()
    }

    /// What is kept of the variable.
    pub(crate) fn get(&self, x: u64) -> &Variable
        requires { x < length self.now.variables }
        ensures { slice_get self.now.variables x ≡ Some result.now }
    {
        self.variables.get(x)
    }

    /// Makes a variable; it gets the next number.
    pub(crate) fn make(&mut self, sort: Sort, depth: u64) -> Result<u64, Memory>
        ensures number { IfOk result (λ x. x ≡ length self.old.variables) }
        ensures variables { OnOk result (self.new.variables ≡ self.old.variables ++ record { sort = sort; depth = depth; term = None } ∷ []) }
        ensures changed { OnOk result (TakesBack self.new self.old) }
        ensures unchanged { OnErr result (self.new ≡ self.old) }
    {
        self.changes.make_room()?;
        let x = push(&mut self.variables, sort, depth)?;
        self.changes.push_reserved(Change::Made);
        Ok(x)
    }

    /// Binds the variable to the term, or makes it unbound.
    pub(crate) fn set_term(&mut self, x: u64, term: Option<Term>) -> Result<(), Memory>
        requires { x < length self.old.variables }
        ensures variables { OnOk result (self.new.variables ≡ updated x (with_term term) self.old.variables) }
        ensures changed { OnOk result (TakesBack self.new self.old) }
        ensures unchanged { OnErr result (self.new ≡ self.old) }
    {
        self.changes.make_room()?;
        let before = put_term(&mut self.variables, x, term);
        self.changes.push_reserved(Change::Term(x, before));
        Ok(())
    }

    /// Sets the depth of the variable.
    pub(crate) fn set_depth(&mut self, x: u64, depth: u64) -> Result<(), Memory>
        requires { x < length self.old.variables }
        ensures variables { OnOk result (self.new.variables ≡ updated x (with_depth depth) self.old.variables) }
        ensures changed { OnOk result (TakesBack self.new self.old) }
        ensures unchanged { OnErr result (self.new ≡ self.old) }
    {
        self.changes.make_room()?;
        let before = put_depth(&mut self.variables, x, depth);
        self.changes.push_reserved(Change::Depth(x, before));
        Ok(())
    }

    /// Takes back the latest changes, until `count` are left.
    pub(crate) fn take_back(&mut self, count: u64)
        requires { count ≤ length self.old.changes }
        ensures variables { self.new.variables ≡ all_taken_back (drop count self.old.changes) self.old.variables }
        ensures changes { self.new.changes ≡ take count self.old.changes }
    {
        while self.changes.len() > count {
            self.take_back_latest();
        }
    }

    /// Takes back the latest change.
    fn take_back_latest(&mut self)
        requires { 0 < length self.old.changes }
        ensures { TakesBack self.old self.new }
    {
        let latest = self.changes.len() - 1;
        let change = self.changes.set(latest, Change::Made);
        self.changes.rewind(latest);
        restore(&mut self.variables, change);
    }
}

/// Puts an unbound variable at the end.
fn push(variables: &mut Cells<Variable>, sort: Sort, depth: u64) -> Result<u64, Memory>
    ensures number { IfOk result (λ x. x ≡ length variables.old.items) }
    ensures variables { OnOk result (variables.new.items ≡ variables.old.items ++ record { sort = sort; depth = depth; term = None } ∷ []) }
    ensures unchanged { OnErr result (variables.new.items ≡ variables.old.items) }
{
    variables.make_room()?;
    let x = variables.len();
    variables.push_reserved(Variable {
        sort,
        depth,
        term: None,
    });
    Ok(x)
}

/// Puts the term in the place of what the variable is bound to, which is returned.
fn put_term(variables: &mut Cells<Variable>, x: u64, term: Option<Term>) -> Option<Term>
    requires { x < length variables.old.items }
    ensures before { option_map (λ v. v.term) (slice_get variables.old.items x) ≡ Some result }
    ensures variables { variables.new.items ≡ updated x (with_term term) variables.old.items }
{
    let variable = variables.get(x);
    let (sort, depth) = (variable.sort, variable.depth);
    let before = variables.set(x, Variable { sort, depth, term });
    before.term
}

/// Puts the depth in the place of the variable's, which is returned.
fn put_depth(variables: &mut Cells<Variable>, x: u64, depth: u64) -> u64
    requires { x < length variables.old.items }
    ensures before { option_map (λ v. v.depth) (slice_get variables.old.items x) ≡ Some result }
    ensures variables { variables.new.items ≡ updated x (with_depth depth) variables.old.items }
{
    let Variable {
        sort,
        depth: before,
        term,
    } = variables.set(
        x,
        Variable {
            sort: Sort::Existential,
            depth,
            term: None,
        },
    );
    let _placeholder = variables.set(x, Variable { sort, depth, term });
    before
}

/// Takes the change back.
fn restore(variables: &mut Cells<Variable>, change: Change)
    requires { Speaks change variables.old.items }
    ensures { variables.new.items ≡ taken_back change variables.old.items }
{
    match change {
        Change::Made => {
            let latest = variables.len() - 1;
            variables.rewind(latest);
        }
        Change::Depth(x, before) => {
            let _depth = put_depth(variables, x, before);
        }
        Change::Term(x, before) => {
            let _term = put_term(variables, x, before);
        }
    }
}
