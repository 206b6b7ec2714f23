//! What is left of the instances of a program by what a certificate says.
ghost use Rattle.std.specs.Prelude.{◌≡◌, ◌^◌, ◌∷◌, ◌++◌, [], List, filter, length, nat_lt, not, IfOk, OnOk};
ghost use Rattle.scasp_extend_levels.specs.Sorted.{IsSorted};
ghost use Rattle.scasp_extend_parts.specs.Causes.{Explains};
ghost use Rattle.scasp_extend_parts.specs.Inside.{body_left};
ghost use Rattle.scasp_extend_parts.specs.Obstacles.{grounding_obstacle};
ghost use Rattle.scasp_ground.specs.Bounded.{clause_overflows, is_too_large, overflows};
ghost use Rattle.scasp_ground.specs.Told.{Limits};
ghost use Rattle.scasp_model.specs.Grounding.{ground_program, instances};
ghost use Rattle.scasp_model.specs.Residual.{is_known_true, residual, residual_of};
ghost use Rattle.scasp_model.specs.declared.program.GroundClause.{GroundClause as ThisClause};
ghost use Rattle.scasp_syntax.specs.Tm.{items};
ghost use Rattle.scasp_syntax.specs.declared.predicate_map.PredMap.{PredMap as ThisMap};

use crate::errors::ExtendErr;
use crate::told::Told;
use scasp_extend_levels::Levels;
use scasp_ground::{GroundErr, body_tests, choice, count_instances, instance_of, passes, power};
use scasp_list::Memory;
use scasp_model::GroundClause;
use scasp_syntax::{Clause, Lit, Lits, PredMaps, Program};
use scasp_tables::Domain;
use std::alloc::Global;

/// Puts the literal at the end, unless it is true by what is told.
fn put_unless_true(alloc: Global, told: &Told, literal: Lit, kept: &mut Lits) -> Result<(), Memory>
    ensures { OnOk result (kept.new ≡ kept.old ++ filter (λ l. not (is_known_true told.now.trues told.now.falses l)) (literal ∷ [])) }
{
    if told.is_true(alloc, &literal)? {
        return Ok(());
    }
    kept.push(literal)?;
    Ok(())
}

/// The body without the literals that are true by what is told, unless one of them is false.
fn left_of_body(alloc: Global, told: &Told, body: Lits) -> Result<Option<Lits>, Memory>
    ensures { IfOk result (λ made. made ≡ body_left told.now.trues told.now.falses body) }
{
    let mut kept = Lits::new(alloc);
    for literal in body.into_vec() {
        if told.is_false(alloc, &literal)? {
            return Ok(None);
        }
        put_unless_true(alloc, told, literal, &mut kept)?;
    }
    Ok(Some(kept))
}

/// Puts what is left of the instance behind the others.
fn push_left(
    alloc: Global,
    told: &Told,
    instance: GroundClause,
    made: &mut Levels,
) -> Result<(), Memory>
    ensures { OnOk result ((map : List ThisMap) (g : List ThisClause) → IsSorted map made.old g → IsSorted map made.new (g ++ residual_of told.now.trues told.now.falses instance)) }
{
    let GroundClause { head, body } = instance;
    if told.knows(alloc, &head)? {
        return Ok(());
    }
    match left_of_body(alloc, told, body)? {
        Some(body) => {
            made.push(alloc, &GroundClause { head, body })?;
            Ok(())
        }
        None => Ok(()),
    }
}

/// Puts what is left of the instances of the clause behind the others. TooLarge where there are more than 1,000,000 before any is dropped.
fn push_left_of(
    alloc: Global,
    domain: &Domain,
    told: &Told,
    clause: &Clause,
    made: &mut Levels,
) -> Result<(), GroundErr>
    ensures ok { OnOk result ((map : List ThisMap) (g : List ThisClause) → IsSorted map made.old g → IsSorted map made.new (g ++ residual told.now.trues told.now.falses (instances (items domain.now) clause.now))) }
    ensures limited { Limits result (nat_lt 1000000 (length (items domain.now) ^ clause.now.vars)) (clause_overflows (items domain.now) clause.now) }
{
    let Some(count) = power(domain.len() as u64, clause.vars) else {
        return Err(GroundErr::TooLarge);
    };
    let tests = body_tests(alloc, clause)?;
    for number in 0..count {
        let values = choice(alloc, domain, clause.vars, number)?;
        let kept = match passes(alloc, &values, &tests) {
            Ok(kept) => kept,
            Err(error) => return Err(error),
        };
        if kept {
            push_left(alloc, told, instance_of(alloc, clause, &values)?, made)?;
        }
    }
    Ok(())
}

/// What is left of the instances of the program, within the limits of a grounding.
fn left_within(
    alloc: Global,
    program: &Program,
    map: &PredMaps,
    domain: &Domain,
    told: &Told,
) -> Result<Levels, GroundErr>
    ensures ok { IfOk result (λ made. IsSorted map.now made (residual told.now.trues told.now.falses (ground_program (items domain.now) program.now))) }
    ensures limited { Limits result (is_too_large (items domain.now) program.now) (overflows (items domain.now) program.now) }
{
    let members = domain.len() as u64;
    if count_instances(program.clauses.as_slice(), members).is_none() {
        return Err(GroundErr::TooLarge);
    }
    let mut made = Levels::new(alloc, map, domain.hash_keys())?;
    for clause in program.clauses.as_slice() {
        match push_left_of(alloc, domain, told, clause, &mut made) {
            Ok(()) => {}
            Err(error) => return Err(error),
        }
    }
    Ok(made)
}

/// What is left of the instances of the program over the domain by what is told: those without a known head and a false literal,
/// without their true literals, by the levels that the map gives their heads. No other instance is kept at any time, and no denial.
///
/// # Errors
///
/// TooLarge where there are more than 1,000,000 instances before any is dropped; else Overflow where a row is past the range of the
/// numbers at an instance, up to the first false test; want of memory.
pub fn left_over(
    alloc: Global,
    program: &Program,
    map: &PredMaps,
    domain: &Domain,
    told: &Told,
) -> Result<Levels, ExtendErr>
    ensures causes { Explains result (grounding_obstacle program.now (items domain.now)) }
    ensures left { IfOk result (λ made. IsSorted map.now made (residual told.now.trues told.now.falses (ground_program (items domain.now) program.now))) }
{
    match left_within(alloc, program, map, domain, told) {
        Ok(left) => Ok(left),
        Err(error) => Err(ExtendErr::from(error)),
    }
}
