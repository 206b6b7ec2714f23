//! The names that a program has.
ghost use Rattle.std.specs.Prelude.{◌≡◌, ℕ, [], IfOk, OnOk};
ghost use Rattle.scasp_abduce.specs.Inside.{HasBoth};
ghost use Rattle.scasp_abduce.specs.Occurrences.{has, names_of, terms_names};

use crate::taken_names::TakenNames;
use scasp_list::{Memory, Sequence};
use scasp_name::NameId;
use scasp_syntax::{Atom, Clause, Item, Pred, Program, Query, Term, Terms};
use std::alloc::Global;

/// A value that has names.
trait HasNames {
    ghost use Rattle.std.specs.Prelude.{ℕ, List};

    ghost names: { Self → List ℕ };

    /// Takes each of its names.
    fn take_names(&self, alloc: Global, taken: &mut TakenNames) -> Result<(), Memory>
        ensures { OnOk result (HasBoth taken.new taken.old (names self.now)) };
}

impl<T: HasNames + Drop> HasNames for Sequence<T> {
    ghost use Rattle.std.specs.List.{flat_map};

    ghost names = { flat_map T.names };

    fn take_names(&self, alloc: Global, taken: &mut TakenNames) -> Result<(), Memory> {
        for item in self.as_slice() {
            item.take_names(alloc, taken)?;
        }
        Ok(())
    }
}

/// It takes memory for the lists of terms that are still to be seen, and no machine stack.
impl HasNames for Terms {
    ghost use Rattle.scasp_abduce.specs.Occurrences.{terms_names};

    ghost names = { terms_names };

    fn take_names(&self, alloc: Global, taken: &mut TakenNames) -> Result<(), Memory> {
        let mut unseen: Vec<&[Term]> = Vec::new(alloc);
        unseen.push(self.as_slice())?;
        while let Some(list) = unseen.pop() {
            for term in list {
                match term {
                    Term::Var(_) => {}
                    Term::Num(_) => {}
                    Term::App(name, args) => {
                        taken.insert(*name)?;
                        unseen.push(args.as_slice())?;
                    }
                }
            }
        }
        Ok(())
    }
}

impl HasNames for Term {
    ghost use Rattle.scasp_abduce.specs.Occurrences.{term_names};
    ghost use Rattle.scasp_syntax.specs.View.{tm_of};

    ghost names = { λ t. term_names (tm_of t) };

    fn take_names(&self, alloc: Global, taken: &mut TakenNames) -> Result<(), Memory> {
        match self {
            Term::Var(_) => Ok(()),
            Term::Num(_) => Ok(()),
            Term::App(name, args) => {
                taken.insert(*name)?;
                args.take_names(alloc, taken)
            }
        }
    }
}

impl HasNames for Atom {
    ghost use Rattle.scasp_abduce.specs.Occurrences.{atom_names};

    ghost names = { atom_names };

    fn take_names(&self, alloc: Global, taken: &mut TakenNames) -> Result<(), Memory> {
        taken.insert(self.name)?;
        self.args.take_names(alloc, taken)
    }
}

impl HasNames for Item {
    ghost use Rattle.scasp_abduce.specs.Occurrences.{item_names};

    ghost names = { item_names };

    fn take_names(&self, alloc: Global, taken: &mut TakenNames) -> Result<(), Memory> {
        match self {
            Item::Call(literal) => literal.atom.take_names(alloc, taken),
            Item::Equal(left, right) | Item::Differ(left, right) => {
                left.take_names(alloc, taken)?;
                right.take_names(alloc, taken)
            }
            Item::Linear(_) => Ok(()),
        }
    }
}

impl HasNames for Clause {
    ghost use Rattle.scasp_abduce.specs.Occurrences.{clause_names};

    ghost names = { clause_names };

    fn take_names(&self, alloc: Global, taken: &mut TakenNames) -> Result<(), Memory> {
        match &self.head {
            Some(head) => head.take_names(alloc, taken)?,
            None => {}
        }
        self.body.take_names(alloc, taken)
    }
}

impl HasNames for Option<NameId> {
    ghost use Rattle.scasp_abduce.specs.Occurrences.{variable_names};

    ghost names = { variable_names };

    fn take_names(&self, _alloc: Global, taken: &mut TakenNames) -> Result<(), Memory> {
        match self {
            Some(name) => taken.insert(*name),
            None => Ok(()),
        }
    }
}

impl HasNames for Query {
    ghost use Rattle.scasp_abduce.specs.Occurrences.{query_names};

    ghost names = { query_names };

    fn take_names(&self, alloc: Global, taken: &mut TakenNames) -> Result<(), Memory> {
        self.body.take_names(alloc, taken)?;
        self.names.take_names(alloc, taken)
    }
}

impl HasNames for Pred {
    ghost use Rattle.std.specs.Prelude.{[], ◌∷◌};

    ghost names = { λ p. p.name ∷ [] };

    fn take_names(&self, _alloc: Global, taken: &mut TakenNames) -> Result<(), Memory> {
        taken.insert(self.name)
    }
}

/// The names of the program: those of its clauses, of its queries with their variables, and of the abducible predicates.
pub(crate) fn taken_names(alloc: Global, program: &Program) -> Result<TakenNames, Memory>
    ensures { IfOk result (λ taken. HasBoth taken [] (names_of program.now.clauses program.now.queries program.now.abducibles)) }
{
    let mut taken = TakenNames::new(alloc);
    program.clauses.take_names(alloc, &mut taken)?;
    program.queries.take_names(alloc, &mut taken)?;
    program.abducibles.take_names(alloc, &mut taken)?;
    Ok(taken)
}
