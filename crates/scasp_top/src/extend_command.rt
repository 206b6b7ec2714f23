//! The command `extend`.
ghost use Rattle.std.specs.Prelude.{Some};
ghost use Rattle.scasp_command_words.specs.declared.command.Command.TheVariants as command;
ghost use Rattle.scasp_command_inputs.specs.Inputs.{outside};
ghost use Rattle.scasp_command_inputs.specs.Reports.{Reports};
ghost use Rattle.scasp_top.specs.Outputs.{Outputs};

use scasp_command_extend::extend_files;
use scasp_command_inputs::Status;
use scasp_io::{Files, Sink};
use std::alloc::Global;

/// Extends the answers in a file, of the program in another, over the domain in a third.
pub(crate) fn extend_answers<F: Files, K: Sink>(
    alloc: Global,
    program: &str,
    answers: &str,
    domain: &str,
    files: &mut F,
    out: &mut K,
) -> Status
    ensures { Reports (Outputs (Some (command.Extend program.now answers.now domain.now)) (outside (F.told files.old) (F.faults files.old) (F.faults files.new))) (K.taken out.old) (K.taken out.new) (K.faults out.old) (K.faults out.new) result }
{
    extend_files(alloc, program, answers, domain, files, out)
}
