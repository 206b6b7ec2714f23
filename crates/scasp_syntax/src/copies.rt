//! Copies.
ghost use Rattle.std.specs.Prelude.{◌≡◌, IfOk};

use crate::atom::{Atom, Lit, Pred};
use crate::clause::{Clause, FlatItem, Item, Lin, Query};
use crate::con::Con;
use crate::hint::Hint;
use crate::predicate_map::PredMap;
use crate::program::Program;
use crate::rebuilding::{Unchanged, rebuilt};
use crate::term::{Term, Terms};
use scasp_list::Sequence;
use scasp_name::{Memory, NameId};
use std::alloc::Global;

/// A copy of a term. It takes memory for what is still to be copied, and no machine stack.
pub fn copy(alloc: Global, term: &Term) -> Result<Term, Memory>
    ensures { IfOk result (λ copied. copied ≡ term.now) }
{
    match term {
        Term::Var(x) => Ok(Term::Var(*x)),
        Term::Num(value) => Ok(Term::Num(*value)),
        Term::App(name, args) => Ok(Term::App(*name, copy_terms(alloc, args)?)),
    }
}

/// A copy of a list of terms, with memory as `copy`.
pub fn copy_terms(alloc: Global, terms: &Terms) -> Result<Terms, Memory>
    ensures { IfOk result (λ copied. copied ≡ terms.now) }
{
    rebuilt(alloc, terms.as_slice(), &Unchanged)
}

/// A value of which copies are made with an allocator's memory.
pub trait DeepCopy {
    /// A copy of the value.
    fn copy(&self, alloc: Global) -> Result<Self, Memory>
        ensures { IfOk result (λ copied. copied ≡ self.now) };
}

impl DeepCopy for u64 {
    fn copy(&self, _alloc: Global) -> Result<u64, Memory> {
        Ok(*self)
    }
}

impl DeepCopy for PredMap {
    fn copy(&self, _alloc: Global) -> Result<PredMap, Memory> {
        Ok(*self)
    }
}

impl DeepCopy for Pred {
    fn copy(&self, _alloc: Global) -> Result<Pred, Memory> {
        Ok(*self)
    }
}

impl DeepCopy for Option<NameId> {
    fn copy(&self, _alloc: Global) -> Result<Option<NameId>, Memory> {
        Ok(*self)
    }
}

impl DeepCopy for Term {
    fn copy(&self, alloc: Global) -> Result<Term, Memory> {
        copy(alloc, self)
    }
}

impl<T: DeepCopy + Drop> DeepCopy for Sequence<T> {
    fn copy(&self, alloc: Global) -> Result<Sequence<T>, Memory> {
        let mut copied = Vec::with_capacity(alloc, self.len())?;
        for item in self.as_slice() {
            copied.push(item.copy(alloc)?)?;
        }
        Ok(Sequence::from(copied))
    }
}

impl DeepCopy for Atom {
    fn copy(&self, alloc: Global) -> Result<Atom, Memory> {
        Ok(Atom {
            minus: self.minus,
            name: self.name,
            args: copy_terms(alloc, &self.args)?,
        })
    }
}

impl DeepCopy for Lit {
    fn copy(&self, alloc: Global) -> Result<Lit, Memory> {
        Ok(Lit {
            positive: self.positive,
            atom: self.atom.copy(alloc)?,
        })
    }
}

impl DeepCopy for Con {
    fn copy(&self, alloc: Global) -> Result<Con, Memory> {
        match self {
            Con::Eq(left, right) => Ok(Con::Eq(copy(alloc, left)?, copy(alloc, right)?)),
            Con::Neq(left, right) => Ok(Con::Neq(copy(alloc, left)?, copy(alloc, right)?)),
            Con::NotShape(x, name, arity) => Ok(Con::NotShape(*x, *name, *arity)),
            Con::Num(term) => Ok(Con::Num(copy(alloc, term)?)),
            Con::NotNum(term) => Ok(Con::NotNum(copy(alloc, term)?)),
            Con::Row(row) => Ok(Con::Row(row.clone()?)),
        }
    }
}

impl DeepCopy for Hint {
    fn copy(&self, _alloc: Global) -> Result<Hint, Memory> {
        match self {
            Hint::Terms => Ok(Hint::Terms),
            Hint::Rows(steps) => Ok(Hint::Rows(steps.clone()?)),
            Hint::Same(place, lists) => Ok(Hint::Same(*place, lists.clone()?)),
        }
    }
}

impl DeepCopy for Lin {
    fn copy(&self, alloc: Global) -> Result<Lin, Memory> {
        Ok(Lin {
            vars: self.vars.copy(alloc)?,
            row: self.row.clone()?,
        })
    }
}

impl DeepCopy for Item {
    fn copy(&self, alloc: Global) -> Result<Item, Memory> {
        match self {
            Item::Call(literal) => Ok(Item::Call(literal.copy(alloc)?)),
            Item::Equal(left, right) => Ok(Item::Equal(copy(alloc, left)?, copy(alloc, right)?)),
            Item::Differ(left, right) => Ok(Item::Differ(copy(alloc, left)?, copy(alloc, right)?)),
            Item::Linear(linear) => Ok(Item::Linear(linear.copy(alloc)?)),
        }
    }
}

impl DeepCopy for FlatItem {
    fn copy(&self, alloc: Global) -> Result<FlatItem, Memory> {
        match self {
            FlatItem::Call(literal) => Ok(FlatItem::Call(literal.copy(alloc)?)),
            FlatItem::Test(test) => Ok(FlatItem::Test(test.copy(alloc)?)),
        }
    }
}

impl DeepCopy for Option<Atom> {
    fn copy(&self, alloc: Global) -> Result<Option<Atom>, Memory> {
        match self {
            Some(atom) => Ok(Some(atom.copy(alloc)?)),
            None => Ok(None),
        }
    }
}

impl DeepCopy for Clause {
    fn copy(&self, alloc: Global) -> Result<Clause, Memory> {
        Ok(Clause {
            head: self.head.copy(alloc)?,
            body: self.body.copy(alloc)?,
            vars: self.vars,
        })
    }
}

impl DeepCopy for Query {
    fn copy(&self, alloc: Global) -> Result<Query, Memory> {
        Ok(Query {
            body: self.body.copy(alloc)?,
            names: self.names.copy(alloc)?,
        })
    }
}

impl DeepCopy for Program {
    fn copy(&self, alloc: Global) -> Result<Program, Memory> {
        let clauses = self.clauses.copy(alloc)?;
        let queries = self.queries.copy(alloc)?;
        let abducibles = self.abducibles.copy(alloc)?;
        Ok(Program {
            clauses,
            queries,
            abducibles,
        })
    }
}
