//! Reading a program.
ghost use Rattle.std.specs.Prelude.{◌≡◌, IfOk};
ghost use Rattle.scasp_syntax.specs.Denials.{with_denials};
ghost use Rattle.scasp_reader.specs.Programs.Programs.{program_in, Gives};

use crate::programs::denials::push_denials;
use crate::texts::{Reading, read_text};
use scasp_graph::predicates;
use scasp_list::Memory;
use scasp_name::Names;
use scasp_reader_terms::Stop;
use scasp_syntax::Program;
use std::alloc::Global;

/// The program with the generated denials behind its clauses.
fn completed(alloc: Global, written: Program) -> Result<Program, Memory>
    ensures { IfOk result (λ p. (p.clauses ≡ with_denials written.clauses written.queries) × (p.queries ≡ written.queries) × (p.abducibles ≡ written.abducibles)) }
{
    let preds = predicates(alloc, &written)?;
    let Program {
        mut clauses,
        queries,
        abducibles,
    } = written;
    push_denials(alloc, &mut clauses, preds.as_slice())?;
    Ok(Program {
        clauses,
        queries,
        abducibles,
    })
}

/// Reads the program that the bytes spell, and the table of names behind it: its clauses, behind them a denial for
/// each `-p` that occurs, its queries, and the predicates that may be assumed; or the first fault with its place.
pub fn read_program(alloc: Global, bytes: &[u8], names: Names) -> Result<(Program, Names), Stop>
    ensures { Gives result (program_in names bytes.now) }
{
    let Reading {
        clauses,
        queries,
        abducibles,
        names: table,
    } = read_text(alloc, bytes, names)?;
    let written = Program {
        clauses,
        queries,
        abducibles,
    };
    let program = completed(alloc, written)?;
    Ok((program, table))
}
