//! Clauses and queries behind their numbers.
ghost use Rattle.std.specs.Prelude.{◌≡◌, ◌++◌, length, IfOk, OnOk};
ghost use Rattle.scasp_print_program.specs.Programs.{written};
ghost use Rattle.scasp_view_top.specs.Program.Lines as spec;

use scasp_list::Memory;
use scasp_name::Names;
use scasp_print_program::{put_abducible, put_clause, put_query, written_count};
use scasp_print_words::{put, put_number};
use scasp_syntax::{Clause, Pred, Program, Query};
use std::alloc::Global;

/// Puts the predicates that may be assumed at the end, each behind a tab, without a number.
fn put_abducibles(out: &mut Vec<u8>, names: &Names, preds: &[Pred]) -> Result<(), Memory>
    ensures { OnOk result (out.new.items ≡ out.old.items ++ spec.text_of (spec.abducible_lines names.now preds.now)) }
{
    for pred in preds {
        put(out, "\t")?;
        put_abducible(out, names, *pred)?;
    }
    Ok(())
}

/// What stands between the number of a clause and the clause.
fn mark(is_generated: bool) -> &'static str
    ensures { result.now ≡ spec.mark is_generated }
{
    if is_generated { " generated\t" } else { "\t" }
}

/// Puts a clause at the end behind its number, where so many clauses are written, and the others are generated denials.
fn put_numbered_clause(
    out: &mut Vec<u8>,
    alloc: Global,
    names: &Names,
    written: u64,
    number: u64,
    clause: &Clause,
) -> Result<(), Memory>
    ensures { OnOk result (out.new.items ≡ out.old.items ++ spec.line_text (spec.clause_line names.now written number clause.now)) }
{
    put_number(out, number)?;
    put(out, mark(written < number))?;
    put_clause(out, alloc, names, clause)
}

/// Puts the clauses at the end, each behind its number.
fn put_clauses(
    out: &mut Vec<u8>,
    alloc: Global,
    names: &Names,
    written: u64,
    clauses: &[Clause],
) -> Result<(), Memory>
    ensures { OnOk result (out.new.items ≡ out.old.items ++ spec.text_of (spec.clause_lines names.now written 1 clauses.now)) }
{
    for (place, clause) in clauses.iter().enumerate() {
        put_numbered_clause(out, alloc, names, written, place as u64 + 1, clause)?;
    }
    Ok(())
}

/// Puts a query at the end behind its number.
fn put_numbered_query(
    out: &mut Vec<u8>,
    alloc: Global,
    names: &Names,
    number: u64,
    query: &Query,
) -> Result<(), Memory>
    ensures { OnOk result (out.new.items ≡ out.old.items ++ spec.line_text (spec.query_line names.now number query.now)) }
{
    put(out, "query ")?;
    put_number(out, number)?;
    put(out, "\t")?;
    put_query(out, alloc, names, query)
}

/// Puts the queries at the end, each behind its number.
fn put_queries(
    out: &mut Vec<u8>,
    alloc: Global,
    names: &Names,
    queries: &[Query],
) -> Result<(), Memory>
    ensures { OnOk result (out.new.items ≡ out.old.items ++ spec.text_of (spec.query_lines names.now 1 queries.now)) }
{
    for (place, query) in queries.iter().enumerate() {
        put_numbered_query(out, alloc, names, place as u64 + 1, query)?;
    }
    Ok(())
}

/// How many clauses are written, and no generated denials.
fn count_written(alloc: Global, program: &Program) -> Result<usize, Memory>
    ensures { IfOk result (λ n. n ≡ length (written program.now.clauses program.now.queries)) }
{
    written_count(alloc, program)
}

/// The text of a program with the number of each clause in front, as trees name it; a generated denial is marked as such. Before
/// the clauses stand the predicates that may be assumed, without a number, and behind them the queries with their own numbers.
///
/// # Errors
///
/// Want of memory.
pub fn print_numbered(alloc: Global, program: &Program, names: &Names) -> Result<Vec<u8>, Memory>
    ensures { IfOk result (λ text. text.items ≡ spec.numbered_text names.now program.now.abducibles program.now.clauses program.now.queries) }
{
    let written = count_written(alloc, program)? as u64;
    let mut text = Vec::new(alloc);
    put_abducibles(&mut text, names, program.abducibles.as_slice())?;
    put_clauses(&mut text, alloc, names, written, program.clauses.as_slice())?;
    put_queries(&mut text, alloc, names, program.queries.as_slice())?;
    Ok(text)
}
