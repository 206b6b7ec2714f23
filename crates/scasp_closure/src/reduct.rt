//! The reduct of a ground program by a table of atoms.
ghost use Rattle.std.specs.Prelude.{◌≡◌, IfOk};
ghost use Rattle.scasp_model.specs.Programs.{is_blocked, positive_atoms};
ghost use Rattle.scasp_model.specs.Reduct.{reduct};

use scasp_list::{Memory, Sequence};
use scasp_model::{AtomList, DefiniteRule, DefiniteRules, GroundProgram};
use scasp_syntax::{DeepCopy, Lits};
use scasp_tables::AtomTable;
use std::alloc::Global;

/// Whether the body has `not` before an atom of the table.
fn is_blocked(alloc: Global, atoms: &AtomTable, body: &Lits) -> Result<bool, Memory>
    ensures { IfOk result (λ answer. answer ≡ is_blocked atoms.now body.now) }
{
    for literal in body.as_slice() {
        if !literal.positive && atoms.contains(alloc, &literal.atom)? {
            return Ok(true);
        }
    }
    Ok(false)
}

/// The atoms of the body that stand without `not`.
fn positive_atoms(alloc: Global, body: &Lits) -> Result<AtomList, Memory>
    ensures { IfOk result (λ atoms. atoms ≡ positive_atoms body.now) }
{
    let mut atoms = Sequence::new(alloc);
    for literal in body.as_slice() {
        if literal.positive {
            atoms.push(literal.atom.copy(alloc)?)?;
        }
    }
    Ok(atoms)
}

/// The reduct by the atoms of the table: no rule with `not` before one of them, and no other negated literal.
pub(crate) fn reduct(
    alloc: Global,
    g: &GroundProgram,
    m: &AtomTable,
) -> Result<DefiniteRules, Memory>
    ensures { IfOk result (λ rules. rules ≡ reduct m.now g.now) }
{
    let mut rules = Sequence::new(alloc);
    for clause in g.as_slice() {
        if is_blocked(alloc, m, &clause.body)? {
            continue;
        }
        if let Some(head) = &clause.head {
            let head = head.copy(alloc)?;
            let body = positive_atoms(alloc, &clause.body)?;
            rules.push(DefiniteRule { head, body })?;
        }
    }
    Ok(rules)
}
