//! The blocks of an answer file.
ghost use Rattle.std.specs.Prelude.{◌≡◌, map};
ghost use Rattle.scasp_answers.specs.Files.View.{entry_of};
ghost use Rattle.scasp_command_inputs.specs.Halts.{IfLine};
ghost use Rattle.scasp_command_inputs.specs.Inputs.{Says, outside};
ghost use Rattle.scasp_view_top.specs.Top.Answers as spec;

use crate::answers::{Shown, print_answers};
use crate::words::Options;
use scasp_answers::Entries;
use scasp_command_inputs::{Halt, Status, answers_in_file, program_in_file};
use scasp_io::Files;
use scasp_list::Memory;
use scasp_name::Names;
use scasp_syntax::Program;
use std::alloc::Global;

/// The status where each block that is asked for is accepted, or one is not.
fn status_of(accepted: bool) -> Status
    ensures { result ≡ spec.status_of accepted }
{
    if accepted {
        Status::Done
    } else {
        Status::Refused
    }
}

/// What is shown as the text with which the command ends.
fn shown_line(shown: Shown) -> Halt
    ensures { IfLine result (Says shown.text.items (spec.status_of shown.accepted)) }
{
    let Shown { text, accepted } = shown;
    Halt::Line(text, status_of(accepted))
}

/// The blocks.
fn blocks_shown(
    alloc: Global,
    program: &Program,
    names: &Names,
    options: Options,
    entries: &Entries,
) -> Halt
    ensures { IfLine result (spec.ShowsBlocks program.now names.now options (map entry_of entries.now)) }
{
    match print_answers(alloc, program, names, options, entries) {
        Ok(shown) => shown_line(shown),
        Err(Memory) => Halt::Memory,
    }
}

/// The blocks of a file under the program in another; or the line that tells why there are none.
pub(crate) fn answers_shown<F: Files>(
    alloc: Global,
    program: &str,
    answers: &str,
    options: Options,
    files: &mut F,
) -> Halt
    ensures { IfLine result (spec.TellsAnswers (outside (F.told files.old) (F.faults files.old) (F.faults files.new)) program.now answers.now options) }
{
    let (program, names) = match program_in_file(alloc, program, files) {
        Ok(read) => read,
        Err(halt) => return halt,
    };
    match answers_in_file(alloc, answers, names, files) {
        Ok((entries, names)) => blocks_shown(alloc, &program, &names, options, &entries),
        Err(halt) => halt,
    }
}
