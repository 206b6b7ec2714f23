//! Ground rules over numbers, which are places in a table of atoms.
ghost use Rattle.std.specs.Prelude.{◌≡◌, ◌∷◌, ◌++◌, [], List, Some, slice_get, IfOk, OnOk};
ghost use Rattle.scasp_closure.specs.Reading.{Extends};
ghost use Rattle.scasp_extend_levels.specs.Numbered.{StandAll, StandBody};
ghost use Rattle.scasp_model.specs.declared.program.GroundClause.{GroundClause as ThisClause};

use scasp_list::Sequence;
use scasp_name::Memory;
use scasp_syntax::{Atom, Lits};
use scasp_tables::AtomTable;
use std::alloc::Global;
use std::hash::RandomState;

/// A literal, by the number of its atom.
#[derive(Clone, Copy, Debug)]
pub(crate) struct NumberedLit {
    pub(crate) positive: bool,
    pub(crate) atom: u64,
}

/// A rule, by the numbers of its atoms.
#[derive(Debug, Drop)]
pub(crate) struct NumberedClause {
    pub(crate) head: u64,
    pub(crate) body: Sequence<NumberedLit>,
}

/// Rules over the atoms of a table.
#[derive(Drop)]
pub(crate) struct Level {
    pub(crate) table: AtomTable,
    pub(crate) rules: Sequence<NumberedClause>,
}

/// The literals of the body by the numbers of their atoms; new ones go last in the table.
fn numbered_body(
    alloc: Global,
    table: &mut AtomTable,
    body: &Lits,
) -> Result<Sequence<NumberedLit>, Memory>
    ensures grown { OnOk result (Extends table.old table.new) }
    ensures body { IfOk result (λ made. StandBody table.new made body.now) }
{
    let mut made = Vec::with_capacity(alloc, body.len())?;
    for literal in body.as_slice() {
        let place = table.put(alloc, &literal.atom)?;
        made.push(NumberedLit {
            positive: literal.positive,
            atom: place as u64,
        })?;
    }
    Ok(Sequence::from(made))
}

impl Level {
    /// No rules, over a table that is hashed by the keys. It takes no memory.
    pub(crate) fn new(alloc: Global, random: RandomState) -> Level
        ensures { result.rules ≡ [] }
    {
        Level {
            table: AtomTable::new(alloc, random),
            rules: Sequence::new(alloc),
        }
    }

    /// Puts the rule behind the others.
    pub(crate) fn push(&mut self, alloc: Global, head: &Atom, body: &Lits) -> Result<(), Memory>
        ensures { OnOk result ((cs : List ThisClause) → StandAll self.old.table self.old.rules cs → StandAll self.new.table self.new.rules (cs ++ record { head = Some head.now; body = body.now } ∷ [])) }
    {
        let place = self.table.put(alloc, head)?;
        let body = numbered_body(alloc, &mut self.table, body)?;
        self.rules.push(NumberedClause {
            head: place as u64,
            body,
        })?;
        Ok(())
    }
}
