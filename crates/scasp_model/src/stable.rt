//! Stable models.
ghost use Rattle.std.specs.Prelude.{◌≡◌, ◌↔◌, IfOk, IsTrue, ◌↔◌};
ghost use Rattle.scasp_model.specs.Atoms.{SameAtoms};
ghost use Rattle.scasp_model.specs.Stable.{Stable, is_true_in, are_true_in, is_violated, has_violation};

use crate::atoms::{among, has_all};
use crate::least_model::least_of;
use crate::program::{AtomList, GroundClause, GroundProgram};
use crate::reduct::reduct;
use scasp_name::Memory;
use scasp_syntax::{Lit, Lits};
use std::alloc::Global;

/// Whether the literal is true where exactly these atoms are.
fn is_true_in(alloc: Global, m: &AtomList, literal: &Lit) -> Result<bool, Memory>
    ensures { IfOk result (λ answer. answer ≡ is_true_in m.now literal.now) }
{
    let is_among = among(alloc, m, &literal.atom)?;
    Ok(is_among == literal.positive)
}

/// Whether each literal of the body is true there.
fn are_true_in(alloc: Global, m: &AtomList, body: &Lits) -> Result<bool, Memory>
    ensures { IfOk result (λ answer. answer ≡ are_true_in m.now body.now) }
{
    for literal in body.as_slice() {
        if !is_true_in(alloc, m, literal)? {
            return Ok(false);
        }
    }
    Ok(true)
}

/// Whether the clause is a denial whose body is true there.
fn is_violated(alloc: Global, m: &AtomList, clause: &GroundClause) -> Result<bool, Memory>
    ensures { IfOk result (λ answer. answer ≡ is_violated m.now clause.now) }
{
    match &clause.head {
        None => are_true_in(alloc, m, &clause.body),
        Some(_) => Ok(false),
    }
}

/// Whether the program has a denial whose body is true there.
fn has_violation(alloc: Global, m: &AtomList, g: &GroundProgram) -> Result<bool, Memory>
    ensures { IfOk result (λ answer. answer ≡ has_violation m.now g.now) }
{
    for clause in g.as_slice() {
        if is_violated(alloc, m, clause)? {
            return Ok(true);
        }
    }
    Ok(false)
}

/// Whether the two lists have the same atoms.
fn have_same_atoms(alloc: Global, m: &AtomList, n: &AtomList) -> Result<bool, Memory>
    ensures { IfOk result (λ answer. IsTrue answer ↔ SameAtoms m.now n.now) }
{
    Ok(has_all(alloc, n, m)? && has_all(alloc, m, n)?)
}

/// Whether the atoms of the list are a stable model of the program: those of the least model of its
/// reduct by them, with no denial whose body they make true (Gelfond and Lifschitz 1988).
pub fn is_stable(alloc: Global, g: &GroundProgram, m: &AtomList) -> Result<bool, Memory>
    ensures { IfOk result (λ answer. IsTrue answer ↔ Stable g.now m.now) }
{
    let model = least_of(alloc, &reduct(alloc, g, m)?)?;
    Ok(have_same_atoms(alloc, m, &model)? && !has_violation(alloc, m, g)?)
}
