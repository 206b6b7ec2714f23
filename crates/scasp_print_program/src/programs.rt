//! Programs.
ghost use Rattle.std.specs.Prelude.{◌≡◌, ◌≤◌, ◌++◌, length, take, filter, flat_map, IfOk, OnOk};
ghost use Rattle.scasp_syntax.specs.Programs.{predicates_in};
ghost use Rattle.scasp_print_program.specs.Abducibles.{abducible_text};
ghost use Rattle.scasp_print_program.specs.Programs as spec;

use crate::abducibles::put_abducible;
use crate::clauses::{put_clause, put_query};
use scasp_graph::predicates;
use scasp_list::Memory;
use scasp_name::Names;
use scasp_reader::denial_of;
use scasp_syntax::{Clause, Item, Pred, Preds, Program, Query, same_lit};
use std::alloc::Global;

/// Whether the two items are the same call.
fn is_same_call(alloc: Global, item: &Item, other: &Item) -> Result<bool, Memory>
    ensures { IfOk result (λ answer. answer ≡ spec.is_same_call item.now other.now) }
{
    match (item, other) {
        (Item::Call(lit), Item::Call(other)) => same_lit(alloc, lit, other),
        (Item::Call(_), Item::Equal(_, _) | Item::Differ(_, _) | Item::Linear(_)) => Ok(false),
        (Item::Equal(_, _) | Item::Differ(_, _) | Item::Linear(_), _) => Ok(false),
    }
}

/// Whether the items are calls, and pairwise the same.
fn are_same_calls(alloc: Global, items: &[Item], others: &[Item]) -> Result<bool, Memory>
    ensures { IfOk result (λ answer. answer ≡ spec.are_same_calls items.now others.now) }
{
    let mut left = others;
    for item in items {
        let Some((other, behind)) = left.split_first() else {
            return Ok(false);
        };
        if !is_same_call(alloc, item, other)? {
            return Ok(false);
        }
        left = behind;
    }
    Ok(left.is_empty())
}

/// Whether the clause is the denial that keeps the predicate apart from its negation.
fn is_denial_of(alloc: Global, pred: Pred, clause: &Clause) -> Result<bool, Memory>
    ensures { IfOk result (λ answer. answer ≡ spec.is_denial_of pred clause.now) }
{
    if clause.head.is_some() || clause.vars != pred.arity {
        return Ok(false);
    }
    let denial = denial_of(alloc, pred)?;
    are_same_calls(alloc, clause.body.as_slice(), denial.body.as_slice())
}

/// Whether the clauses are the denials of these predicates, in order.
fn are_denials(alloc: Global, preds: &[Pred], clauses: &[Clause]) -> Result<bool, Memory>
    ensures { IfOk result (λ answer. answer ≡ spec.are_denials preds.now clauses.now) }
{
    let mut left = clauses;
    for pred in preds {
        let Some((clause, behind)) = left.split_first() else {
            return Ok(false);
        };
        if !is_denial_of(alloc, *pred, clause)? {
            return Ok(false);
        }
        left = behind;
    }
    Ok(left.is_empty())
}

/// The predicates with `-`.
fn negated_predicates(alloc: Global, program: &Program) -> Result<Preds, Memory>
    ensures { IfOk result (λ preds. preds ≡ spec.negated_predicates program.now.clauses program.now.queries) }
{
    let all = predicates(alloc, program)?;
    let mut negated = Preds::new(alloc);
    for pred in all.as_slice() {
        if pred.minus {
            negated.push(*pred)?;
        }
    }
    Ok(negated)
}

/// How many clauses stand in front of the generated denials.
///
/// # Errors
///
/// Want of memory.
pub fn written_count(alloc: Global, program: &Program) -> Result<usize, Memory>
    ensures place { IfOk result (λ n. n ≤ length program.now.clauses) }
    ensures clauses { IfOk result (λ n. take n program.now.clauses ≡ spec.written program.now.clauses program.now.queries) }
{
    let negated = negated_predicates(alloc, program)?;
    let all = program.clauses.as_slice();
    let count = all.len().saturating_sub(negated.len());
    if are_denials(alloc, negated.as_slice(), &all[count..])? {
        Ok(count)
    } else {
        Ok(all.len())
    }
}

/// Puts the clauses of predicates that may be assumed at the end, each on a line.
fn put_abducibles(out: &mut Vec<u8>, names: &Names, preds: &[Pred]) -> Result<(), Memory>
    ensures { OnOk result (out.new.items ≡ out.old.items ++ flat_map (abducible_text names.now) preds.now) }
{
    for pred in preds {
        put_abducible(out, names, *pred)?;
    }
    Ok(())
}

/// Puts the clauses at the end, each on a line.
fn put_clauses(
    out: &mut Vec<u8>,
    alloc: Global,
    names: &Names,
    clauses: &[Clause],
) -> Result<(), Memory>
    ensures { OnOk result (out.new.items ≡ out.old.items ++ flat_map (spec.clause_text names.now) clauses.now) }
{
    for clause in clauses {
        put_clause(out, alloc, names, clause)?;
    }
    Ok(())
}

/// Puts the queries at the end, each on a line.
fn put_queries(
    out: &mut Vec<u8>,
    alloc: Global,
    names: &Names,
    queries: &[Query],
) -> Result<(), Memory>
    ensures { OnOk result (out.new.items ≡ out.old.items ++ flat_map (spec.query_text names.now) queries.now) }
{
    for query in queries {
        put_query(out, alloc, names, query)?;
    }
    Ok(())
}

/// The text of a program: a predicate that may be assumed a line, then a clause a line, without its generated denials, and
/// then a query a line. A rule's variables are written `V0`, `V1`, .., those of a query by their names; a linear item as
/// its row, over all variables that it lists.
#[tactic(auto, unfolding(crate::specs::Programs::program_text))]
pub fn print_program(alloc: Global, program: &Program, names: &Names) -> Result<Vec<u8>, Memory>
    ensures { IfOk result (λ text. text.items ≡ spec.program_text names.now program.now.abducibles program.now.clauses program.now.queries) }
{
    let mut text = Vec::new(alloc);
    let count = written_count(alloc, program)?;
    put_abducibles(&mut text, names, program.abducibles.as_slice())?;
    put_clauses(
        &mut text,
        alloc,
        names,
        &program.clauses.as_slice()[..count],
    )?;
    put_queries(&mut text, alloc, names, program.queries.as_slice())?;
    Ok(text)
}
