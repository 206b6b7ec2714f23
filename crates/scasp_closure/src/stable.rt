//! Stable models, in time linear in the program.
ghost use Rattle.std.specs.Prelude.{◌≡◌, ◌↔◌, ◌&&◌, not, [], IfOk, IsTrue};
ghost use Rattle.scasp_closure.specs.Reading.{with_atoms};
ghost use Rattle.scasp_model.specs.Atoms.{SameAtoms, has_all};
ghost use Rattle.scasp_model.specs.Least.{least_model};
ghost use Rattle.scasp_model.specs.Reduct.{reduct};
ghost use Rattle.scasp_model.specs.Stable.{Stable, is_true_in, are_true_in, is_violated, has_violation};

use crate::closing::closure;
use crate::reduct::reduct;
use scasp_list::Memory;
use scasp_model::{AtomList, GroundClause, GroundProgram};
use scasp_syntax::{Lit, Lits};
use scasp_tables::AtomTable;
use std::alloc::Global;
use std::hash::RandomState;

/// The table of the atoms of the list, hashed by the keys.
fn table_of(alloc: Global, atoms: &AtomList, random: RandomState) -> Result<AtomTable, Memory>
    ensures { IfOk result (λ table. table ≡ with_atoms [] atoms.now) }
{
    let mut table = AtomTable::new(alloc, random);
    for atom in atoms.as_slice() {
        table.put(alloc, atom)?;
    }
    Ok(table)
}

/// Whether each of these atoms is in the table.
fn has_all(alloc: Global, table: &AtomTable, wanted: &AtomList) -> Result<bool, Memory>
    ensures { IfOk result (λ answer. answer ≡ has_all table.now wanted.now) }
{
    for atom in wanted.as_slice() {
        if !table.contains(alloc, atom)? {
            return Ok(false);
        }
    }
    Ok(true)
}

/// Whether the literal is true where exactly these atoms are.
fn is_true_in(alloc: Global, m: &AtomTable, literal: &Lit) -> Result<bool, Memory>
    ensures { IfOk result (λ answer. answer ≡ is_true_in m.now literal.now) }
{
    let is_among = m.contains(alloc, &literal.atom)?;
    Ok(is_among == literal.positive)
}

/// Whether each literal of the body is true there.
fn are_true_in(alloc: Global, m: &AtomTable, body: &Lits) -> Result<bool, Memory>
    ensures { IfOk result (λ answer. answer ≡ are_true_in m.now body.now) }
{
    for literal in body.as_slice() {
        if !is_true_in(alloc, m, literal)? {
            return Ok(false);
        }
    }
    Ok(true)
}

/// Whether the clause is a denial whose body is true there.
fn is_violated(alloc: Global, m: &AtomTable, clause: &GroundClause) -> Result<bool, Memory>
    ensures { IfOk result (λ answer. answer ≡ is_violated m.now clause.now) }
{
    match &clause.head {
        None => are_true_in(alloc, m, &clause.body),
        Some(_) => Ok(false),
    }
}

/// Whether the program has a denial whose body is true there.
fn has_violation(alloc: Global, m: &AtomTable, g: &GroundProgram) -> Result<bool, Memory>
    ensures { IfOk result (λ answer. answer ≡ has_violation m.now g.now) }
{
    for clause in g.as_slice() {
        if is_violated(alloc, m, clause)? {
            return Ok(true);
        }
    }
    Ok(false)
}

/// Whether the atoms of the list are a stable model of the program: those of the least model of its
/// reduct by them, with no denial whose body they make true (Gelfond and Lifschitz 1988). The atoms are hashed by the keys.
pub fn is_stable(
    alloc: Global,
    g: &GroundProgram,
    m: &AtomList,
    random: RandomState,
) -> Result<bool, Memory>
    ensures { IfOk result (λ answer. IsTrue answer ↔ Stable g.now m.now) }
{
    let table = table_of(alloc, m, random)?;
    is_stable_by(alloc, g, m, &table, random)
}

/// The same, by the table of the list's atoms.
fn is_stable_by(
    alloc: Global,
    g: &GroundProgram,
    m: &AtomList,
    table: &AtomTable,
    random: RandomState,
) -> Result<bool, Memory>
    requires { table.now ≡ with_atoms [] m.now }
    ensures { IfOk result (λ answer. IsTrue answer ↔ Stable g.now m.now) }
{
    let model = reduced_model(alloc, g, table, random)?;
    let reached = table_of(alloc, &model, random)?;
    is_reached(alloc, g, m, table, &model, &reached)
}

/// The least model of the reduct by the atoms of the table.
fn reduced_model(
    alloc: Global,
    g: &GroundProgram,
    table: &AtomTable,
    random: RandomState,
) -> Result<AtomList, Memory>
    ensures { IfOk result (λ model. SameAtoms model (least_model (reduct table.now g.now))) }
{
    let rules = reduct(alloc, g, table)?;
    closure(alloc, &rules, random)
}

/// Whether the model has the atoms of the list, and no denial's body is true there, by the tables of both.
fn is_reached(
    alloc: Global,
    g: &GroundProgram,
    m: &AtomList,
    table: &AtomTable,
    model: &AtomList,
    reached: &AtomTable,
) -> Result<bool, Memory>
    ensures { IfOk result (λ answer. answer ≡ (has_all table.now model.now && has_all reached.now m.now && not (has_violation table.now g.now))) }
{
    let is_closed = has_all(alloc, table, model)?;
    let is_founded = has_all(alloc, reached, m)?;
    let is_violated = has_violation(alloc, table, g)?;
    Ok(all_hold(is_closed, is_founded, is_violated))
}

/// Whether the first two hold and the third does not.
fn all_hold(is_closed: bool, is_founded: bool, is_violated: bool) -> bool
    ensures { result ≡ (is_closed && is_founded && not is_violated) }
{
    is_closed && is_founded && !is_violated
}
