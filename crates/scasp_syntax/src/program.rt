//! Whole programs.
ghost use Rattle.std.specs.Prelude.{IsTrue};
ghost use Rattle.scasp_syntax.specs.WellFormed.{are_abducible, are_well_formed};

use crate::atom::Preds;
use crate::clause::{Clause, Clauses, Queries, Query};

/// A program: its rules and denials, numbered from 1, its queries, numbered from 1 by themselves, and the predicates
/// that may be assumed.
///
/// Every variable of a clause is below its `vars`, every variable of a query below the length of its
/// `names`, and the variables of a linear item ascend and hold those of its row, which is in normal form.
/// The abducible predicates are distinct, and none has `-`.
#[derive(Debug, Drop)]
pub struct Program {
    pub clauses: Clauses,
    pub queries: Queries,
    pub abducibles: Preds,
    ghost well_formed: { IsTrue (are_well_formed clauses queries) },
    ghost choices: { IsTrue (are_abducible abducibles) },
}

impl Program {
    ghost use Rattle.std.specs.Prelude.{◌≡◌, option_copied};
    ghost use Rattle.scasp_syntax.specs.Programs.{numbered};

    /// The clause of this number, counted from 1.
    pub fn clause(&self, number: u64) -> Option<&Clause>
        ensures { option_copied result ≡ numbered self.now.clauses number }
    {
        if number == 0 {
            return None;
        }
        self.clauses.get((number - 1) as usize)
    }

    /// The query of this number, counted from 1.
    pub fn query(&self, number: u64) -> Option<&Query>
        ensures { option_copied result ≡ numbered self.now.queries number }
    {
        if number == 0 {
            return None;
        }
        self.queries.get((number - 1) as usize)
    }
}
