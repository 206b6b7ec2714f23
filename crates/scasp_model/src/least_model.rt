//! The least model of rules without `not`.
ghost use Rattle.std.specs.Prelude.{◌≡◌, IfOk, IsTrue};
ghost use Rattle.scasp_model.specs.Atoms.{are_distinct};
ghost use Rattle.scasp_model.specs.Least.{round, rounds, least_model};
ghost use Rattle.scasp_model.specs.Programs.{is_positive, is_without_not};
ghost use Rattle.scasp_model.specs.Reduct.{definite};

use crate::atoms::{among, has_all};
use crate::program::{AtomList, DefiniteRules, GroundProgram};
use crate::reduct::definite;
use scasp_name::Memory;
use scasp_syntax::{DeepCopy, Lits, Sequence};
use std::alloc::Global;

/// Whether the body has no `not`.
fn is_positive(body: &Lits) -> bool
    ensures { result ≡ is_positive body.now }
{
    body.as_slice().iter().all(|literal| literal.positive)
}

/// Whether no body has `not`.
pub fn is_without_not(g: &GroundProgram) -> bool
    ensures { result ≡ is_without_not g.now }
{
    g.as_slice().iter().all(|clause| is_positive(&clause.body))
}

/// The least model of a program without `not`, in the order of rounds: each round adds, in the order of
/// the rules, the heads of those whose bodies the rounds before it gave. Denials add nothing.
pub fn least(alloc: Global, g: &GroundProgram) -> Result<AtomList, Memory>
    requires { IsTrue (is_without_not g.now) }
    ensures rounds { IfOk result (λ atoms. atoms ≡ least_model (definite g.now)) }
    ensures distinct { IfOk result (λ atoms. IsTrue (are_distinct atoms)) }
{
    least_of(alloc, &definite(alloc, g)?)
}

/// The least model of the rules. The rounds end with one that adds nothing.
pub fn least_of(alloc: Global, rules: &DefiniteRules) -> Result<AtomList, Memory>
    ensures rounds { IfOk result (λ atoms. atoms ≡ least_model rules.now) }
    ensures distinct { IfOk result (λ atoms. IsTrue (are_distinct atoms)) }
{
    let mut atoms = Sequence::new(alloc);
    for _round in 0..rules.len() {
        let next = round(alloc, rules, &atoms)?;
        if next.len() == atoms.len() {
            return Ok(next);
        }
        atoms = next;
    }
    Ok(atoms)
}

/// The atoms after one round more.
fn round(alloc: Global, rules: &DefiniteRules, present: &AtomList) -> Result<AtomList, Memory>
    ensures { IfOk result (λ atoms. atoms ≡ round rules.now present.now) }
{
    let mut atoms = present.copy(alloc)?;
    for rule in rules.as_slice() {
        if has_all(alloc, present, &rule.body)? && !among(alloc, &atoms, &rule.head)? {
            atoms.push(rule.head.copy(alloc)?)?;
        }
    }
    Ok(atoms)
}
