//! The command `check`.
ghost use Rattle.std.specs.Prelude.{◌≡◌, Some, map};
ghost use Rattle.scasp_answers.specs.Files.View.{entry_of};
ghost use Rattle.scasp_command_words.specs.declared.command.Command.TheVariants as command;
ghost use Rattle.scasp_top.specs.Ends as spec;
ghost use Rattle.scasp_command_inputs.specs.Inputs.{outside};
ghost use Rattle.scasp_top.specs.Outputs.{Checks, Outputs};
ghost use Rattle.scasp_command_inputs.specs.Reports.{Reports};

use scasp_answers::Entries;
use scasp_command_check::{Rechecked, recheck};
use scasp_command_inputs::{Status, answers_in_file, program_in_file, tell};
use scasp_io::{Files, OutputErr, Sink};
use scasp_syntax::Program;
use std::alloc::Global;

/// The status of a check that ended so.
fn check_status(end: Rechecked) -> Status
    ensures { result ≡ spec.check_status (Some end) }
{
    match end {
        Rechecked::Accepted => Status::Done,
        Rechecked::Refused => Status::Refused,
    }
}

/// Checks the blocks.
fn check_blocks<K: Sink>(alloc: Global, program: &Program, entries: &Entries, out: &mut K) -> Status
    ensures { Reports (Checks program.now (map entry_of entries.now)) (K.taken out.old) (K.taken out.new) (K.faults out.old) (K.faults out.new) result }
{
    match recheck(alloc, program, entries, out) {
        Ok(end) => check_status(end),
        Err(OutputErr::Write) => Status::Write,
        Err(OutputErr::Memory) => Status::Memory,
    }
}

/// Checks the answers in a file against the program in another.
pub(crate) fn check_files<F: Files, K: Sink>(
    alloc: Global,
    program: &str,
    answers: &str,
    files: &mut F,
    out: &mut K,
) -> Status
    ensures { Reports (Outputs (Some (command.Check program.now answers.now)) (outside (F.told files.old) (F.faults files.old) (F.faults files.new))) (K.taken out.old) (K.taken out.new) (K.faults out.old) (K.faults out.new) result }
{
    let (program, names) = match program_in_file(alloc, program, files) {
        Ok(read) => read,
        Err(halt) => return tell(&halt, out),
    };
    match answers_in_file(alloc, answers, names, files) {
        Ok((entries, _)) => check_blocks(alloc, &program, &entries, out),
        Err(halt) => tell(&halt, out),
    }
}
