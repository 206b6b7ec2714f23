//! The predicates of a program.
ghost use Rattle.std.specs.Prelude.{◌≡◌, IfOk, OnOk};
ghost use Rattle.std.specs.List.{flat_map};
ghost use Rattle.scasp_syntax.specs.Programs.{body_preds, clause_preds, predicates};
ghost use Rattle.scasp_graph.specs.Inside.Growing.{grown, query_preds};

use crate::numbering::Numbering;
use scasp_name::Memory;
use scasp_syntax::{Clause, Clauses, Item, Items, Preds, Program, Queries};
use std::alloc::Global;

/// Puts the predicates of the body at the end that are not in the list.
fn push_body(preds: &mut Numbering, body: &Items) -> Result<(), Memory>
    ensures { OnOk result (preds.new ≡ grown preds.old (body_preds body.now)) }
{
    for item in body.as_slice() {
        match item {
            Item::Call(literal) => preds.insert(&literal.atom.pred())?,
            Item::Equal(_, _) | Item::Differ(_, _) | Item::Linear(_) => {}
        }
    }
    Ok(())
}

/// Puts the predicates of the clause at the end that are not in the list.
fn push_clause(preds: &mut Numbering, clause: &Clause) -> Result<(), Memory>
    ensures { OnOk result (preds.new ≡ grown preds.old (clause_preds clause.now)) }
{
    match &clause.head {
        None => {}
        Some(head) => preds.insert(&head.pred())?,
    }
    push_body(preds, &clause.body)
}

fn push_clauses(preds: &mut Numbering, clauses: &Clauses) -> Result<(), Memory>
    ensures { OnOk result (preds.new ≡ grown preds.old (flat_map clause_preds clauses.now)) }
{
    for clause in clauses.as_slice() {
        push_clause(preds, clause)?;
    }
    Ok(())
}

fn push_queries(preds: &mut Numbering, queries: &Queries) -> Result<(), Memory>
    ensures { OnOk result (preds.new ≡ grown preds.old (flat_map query_preds queries.now)) }
{
    for query in queries.as_slice() {
        push_body(preds, &query.body)?;
    }
    Ok(())
}

/// The predicates of the program, numbered in order of first occurrence.
pub fn number(alloc: Global, program: &Program) -> Result<Numbering, Memory>
    ensures { IfOk result (λ preds. preds ≡ predicates program.now) }
{
    let mut preds = Numbering::new(alloc);
    push_clauses(&mut preds, &program.clauses)?;
    push_queries(&mut preds, &program.queries)?;
    Ok(preds)
}

/// The predicates of the program in order of first occurrence, as a list: the clauses in order, each with its head
/// first, then the queries.
pub fn predicates(alloc: Global, program: &Program) -> Result<Preds, Memory>
    ensures { IfOk result (λ preds. preds ≡ predicates program.now) }
{
    number(alloc, program)?.predicates(alloc)
}
