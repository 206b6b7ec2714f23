//! Ground rules and denials that are made of clauses.
ghost use Rattle.std.specs.Prelude.{◌≡◌, ◌<◌, ◌≤◌, ◌++◌, ◌^◌, length, nat_lt, IfOk, OnOk};
ghost use Rattle.std.specs.List.{flat_map};
ghost use Rattle.scasp_ground.specs.Bounded.{clause_overflows};
ghost use Rattle.scasp_ground.specs.Told.{Limits};
ghost use Rattle.scasp_model.specs.Grounding.{instance_of, instances, literal_under};
ghost use Rattle.scasp_syntax.specs.Instances.{head_under};
ghost use Rattle.scasp_syntax.specs.Tm.{items};
ghost use Rattle.scasp_syntax.specs.Values.{giving};

use crate::count::power;
use crate::error::GroundErr;
use crate::tested::{body_tests, passes};
use crate::ways::choice;
use scasp_list::{Memory, Sequence};
use scasp_model::{GroundClause, GroundProgram};
use scasp_syntax::{Atom, Clause, Item, Items, Lit, Lits, Terms, instance_atom};
use scasp_tables::Domain;
use std::alloc::Global;

/// The ground rule or denial that is made of the clause's literals.
pub fn instance_of(alloc: Global, clause: &Clause, values: &Terms) -> Result<GroundClause, Memory>
    ensures { IfOk result (λ made. made ≡ instance_of clause.now (giving (items values.now))) }
{
    let head = head_of(alloc, &clause.head, values)?;
    let body = literals_of(alloc, &clause.body, values)?;
    Ok(GroundClause { head, body })
}

/// The head under the values.
fn head_of(alloc: Global, head: &Option<Atom>, values: &Terms) -> Result<Option<Atom>, Memory>
    ensures { IfOk result (λ made. made ≡ head_under (giving (items values.now)) head.now) }
{
    match head {
        Some(atom) => Ok(Some(instance_atom(alloc, atom, values)?)),
        None => Ok(None),
    }
}

/// The literals of the body under the values.
fn literals_of(alloc: Global, body: &Items, values: &Terms) -> Result<Lits, Memory>
    ensures { IfOk result (λ made. made ≡ flat_map (literal_under (giving (items values.now))) body.now) }
{
    let mut made = Sequence::new(alloc);
    for item in body.as_slice() {
        match item {
            Item::Call(literal) => {
                let positive = literal.positive;
                let atom = instance_atom(alloc, &literal.atom, values)?;
                made.push(Lit { positive, atom })?;
            }
            Item::Equal(_, _) => {}
            Item::Differ(_, _) => {}
            Item::Linear(_) => {}
        }
    }
    Ok(made)
}

/// Puts the instances of the clause at the end, without those of which a test is false. TooLarge where there are more than 1,000,000
/// before any is dropped.
pub(crate) fn push_instances(
    alloc: Global,
    domain: &Domain,
    clause: &Clause,
    made: &mut GroundProgram,
) -> Result<(), GroundErr>
    ensures ok { OnOk result (made.new ≡ made.old ++ instances (items domain.now) clause.now) }
    ensures limited { Limits result (nat_lt 1000000 (length (items domain.now) ^ clause.now.vars)) (clause_overflows (items domain.now) clause.now) }
{
    let Some(count) = power(domain.len() as u64, clause.vars) else {
        return Err(GroundErr::TooLarge);
    };
    let tests = body_tests(alloc, clause)?;
    for number in 0..count {
        let values = choice(alloc, domain, clause.vars, number)?;
        let kept = match passes(alloc, &values, &tests) {
            Ok(kept) => kept,
            Err(error) => return Err(error),
        };
        if kept {
            made.push(instance_of(alloc, clause, &values)?)?;
        }
    }
    Ok(())
}
