//! The command `recheck`.
ghost use Rattle.std.specs.Prelude.{Some};
ghost use Rattle.scasp_command_words.specs.declared.command.Command.TheVariants as command;
ghost use Rattle.scasp_command_inputs.specs.Inputs.{outside};
ghost use Rattle.scasp_command_inputs.specs.Reports.{Reports};
ghost use Rattle.scasp_top.specs.Outputs.{Outputs};

use scasp_command_inputs::Status;
use scasp_command_recheck::recheck_files;
use scasp_command_words::Word;
use scasp_io::{Files, Sink};
use std::alloc::Global;

/// Checks the answers in a file under the programs in others, one after another.
pub(crate) fn recheck_programs<F: Files, K: Sink>(
    alloc: Global,
    answers: &str,
    programs: &[Word],
    files: &mut F,
    out: &mut K,
) -> Status
    ensures { Reports (Outputs (Some (command.Recheck answers.now programs.now)) (outside (F.told files.old) (F.faults files.old) (F.faults files.new))) (K.taken out.old) (K.taken out.new) (K.faults out.old) (K.faults out.new) result }
{
    recheck_files(alloc, answers, programs, files, out)
}
