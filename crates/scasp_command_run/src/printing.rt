//! What is written: answers with their remarks, and the lines at the end of queries.
ghost use Rattle.std.specs.Prelude.{◌≡◌, ◌++◌, ◌≤◌, codes, decimal, OnOk, IfOk, IsErrOf};
ghost use Rattle.scasp_cert.specs.Certificate.{certificate_of};
ghost use Rattle.scasp_io.specs.Counts.{Rose};
ghost use Rattle.scasp_io.specs.Taken.{Writes};
ghost use Rattle.scasp_command_run.specs.Inside.Continuing.{IsText};
ghost use Rattle.scasp_command_run.specs.Texts as spec;

use crate::ends::QueryEnd;
use itoa::Buffer;
use scasp_cert::Cert;
use scasp_command_words::Format;
use scasp_io::{OutputErr, Sink, write_all};
use scasp_list::Memory;
use scasp_name::{NameId, Names};
use scasp_print::print_cert;
use scasp_print_remarks::put_remarks;
use scasp_print_shared::print_shared;
use scasp_syntax::Program;
use std::alloc::Global;

/// The names of the variables of the query of this number.
fn variables_of(program: &Program, query: u64) -> &[Option<NameId>]
    ensures { result.now ≡ spec.variables_of program.now query }
{
    match program.query(query) {
        Some(asked) => asked.names.as_slice(),
        None => &[],
    }
}

/// The block of the answer of this number.
fn answer_block(
    alloc: Global,
    names: &Names,
    number: u64,
    cert: &Cert,
    format: Format,
) -> Result<Vec<u8>, Memory>
    ensures { IfOk result (λ text. text.items ≡ spec.answer_block format number (record { names = names.now; certificate = certificate_of cert.now })) }
{
    match format {
        Format::Whole => print_cert(alloc, names, cert, number),
        Format::Shared => print_shared(alloc, names, cert, number),
    }
}

/// The block of the answer of this number, and the remarks on it.
pub(crate) fn answer_text(
    alloc: Global,
    program: &Program,
    names: &Names,
    number: u64,
    cert: &Cert,
    format: Format,
) -> Result<Vec<u8>, Memory>
    ensures { IfOk result (λ text. text.items ≡ spec.answer_text format program.now number (record { names = names.now; certificate = certificate_of cert.now })) }
{
    let mut text = answer_block(alloc, names, number, cert, format)?;
    put_remarks(&mut text, names, variables_of(program, cert.query), cert)?;
    Ok(text)
}

/// Writes the text of an answer.
pub(crate) fn write_answer<K: Sink>(text: &[u8], out: &mut K) -> Result<(), OutputErr>
    ensures output { Writes (IsText text.now) (K.taken out.old) (K.taken out.new) result }
    ensures write { IsErrOf result OutputErr.Write → Rose (K.faults out.old) (K.faults out.new) }
    ensures counts { K.faults out.old ≤ K.faults out.new }
{
    write_all(out, text)?;
    Ok(())
}

/// The first line of a run.
pub(crate) fn header_line(format: Format) -> &'static [u8]
    ensures { result.now ≡ spec.header_line format }
{
    match format {
        Format::Whole => b"scasp 1\n",
        Format::Shared => b"scasp 2\n",
    }
}

/// The word of how a query ended.
fn end_word(end: QueryEnd) -> &'static str
    ensures { result.now ≡ spec.end_word end }
{
    match end {
        QueryEnd::Ended => "ended ",
        QueryEnd::Stopped => "stopped ",
        QueryEnd::Spent => "spent ",
        QueryEnd::Overflow => "overflow ",
    }
}

/// The line of how the query of this number ended.
fn end_line(alloc: Global, query: u64, end: QueryEnd) -> Result<Vec<u8>, Memory>
    ensures { IfOk result (λ line. line.items ≡ spec.end_line query end) }
{
    let mut line = Vec::from_slice(alloc, end_word(end).as_bytes())?;
    line.extend_from_slice(Buffer::new().format(query).as_bytes())?;
    line.extend_from_slice(b"\n")?;
    Ok(line)
}

/// Writes the line of how the query of this number ended.
pub(crate) fn write_end<K: Sink>(
    alloc: Global,
    query: u64,
    end: QueryEnd,
    out: &mut K,
) -> Result<(), OutputErr>
    ensures output { Writes (IsText (spec.end_line query end)) (K.taken out.old) (K.taken out.new) result }
    ensures write { IsErrOf result OutputErr.Write → Rose (K.faults out.old) (K.faults out.new) }
    ensures counts { K.faults out.old ≤ K.faults out.new }
{
    let line = end_line(alloc, query, end)?;
    write_all(out, line.as_slice())?;
    Ok(())
}
