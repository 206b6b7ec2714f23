//! The command `extend`.
ghost use Rattle.std.specs.Prelude.{◌≡◌, Some, map};
ghost use Rattle.scasp_answers.specs.Files.View.{entry_of};
ghost use Rattle.scasp_command_extend.specs.Commands as spec;
ghost use Rattle.scasp_command_inputs.specs.Inputs.{outside};
ghost use Rattle.scasp_command_inputs.specs.Reports.{Reports};
ghost use Rattle.scasp_syntax.specs.Tm.{items};

use crate::ends::Extended;
use crate::extending::extend_blocks;
use scasp_answers::Entries;
use scasp_command_inputs::{Status, answers_in_file, domain_in_file, program_in_file, tell};
use scasp_io::{Files, OutputErr, Sink};
use scasp_name::Names;
use scasp_syntax::Program;
use scasp_tables::Domain;
use std::alloc::Global;

/// The status of an extension that ended so.
fn extend_status(end: Extended) -> Status
    ensures { result ≡ spec.extend_status (Some end) }
{
    match end {
        Extended::Models => Status::Done,
        Extended::NoModel => Status::NoModel,
        Extended::Refused => Status::Refused,
    }
}

/// Extends the blocks over the domain.
fn print_blocks<K: Sink>(
    alloc: Global,
    program: &Program,
    names: &Names,
    entries: &Entries,
    domain: &Domain,
    out: &mut K,
) -> Status
    ensures { Reports (spec.ExtendsBlocks names.now program.now (items domain.now) (map entry_of entries.now)) (K.taken out.old) (K.taken out.new) (K.faults out.old) (K.faults out.new) result }
{
    match extend_blocks(alloc, program, names, entries, domain, out) {
        Ok(end) => extend_status(end),
        Err(OutputErr::Write) => Status::Write,
        Err(OutputErr::Memory) => Status::Memory,
    }
}

/// Extends the answers in a file, of the program in another, over the domain in a third.
pub fn extend_files<F: Files, K: Sink>(
    alloc: Global,
    program: &str,
    answers: &str,
    domain: &str,
    files: &mut F,
    out: &mut K,
) -> Status
    ensures { Reports (spec.Extends (outside (F.told files.old) (F.faults files.old) (F.faults files.new)) program.now answers.now domain.now) (K.taken out.old) (K.taken out.new) (K.faults out.old) (K.faults out.new) result }
{
    let (program, names) = match program_in_file(alloc, program, files) {
        Ok(read) => read,
        Err(halt) => return tell(&halt, out),
    };
    let (entries, names) = match answers_in_file(alloc, answers, names, files) {
        Ok(read) => read,
        Err(halt) => return tell(&halt, out),
    };
    match domain_in_file(alloc, domain, names, files) {
        Ok((domain, names)) => print_blocks(alloc, &program, &names, &entries, &domain, out),
        Err(halt) => tell(&halt, out),
    }
}
