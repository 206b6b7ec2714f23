//! The call of `scasp_view`: from its words and the bytes of files to what is shown.
ghost use Rattle.std.specs.Prelude.{◌≡◌, map, string_bytes};
ghost use Rattle.scasp_command_inputs.specs.Halts.{IfLine};
ghost use Rattle.scasp_command_inputs.specs.Inputs.{outside, without_faults};
ghost use Rattle.scasp_command_inputs.specs.Reports.{Reports};
ghost use Rattle.scasp_io.specs.Counts.{Rose};
ghost use Rattle.scasp_io.specs.Taken.{TakesWhole};
ghost use Rattle.scasp_view_top.specs.Top.Outputs.{HasReadFault, Outputs};
ghost use Rattle.scasp_view_top.specs.Words.Asked.{asked_of};

mod answers;
mod places;
mod programs;
mod texts;

use crate::top::answers::answers_shown;
use crate::top::places::place_shown;
use crate::top::programs::program_shown;
use crate::words::{Asked, parse_words};
use scasp_command_inputs::{Halt, Status, line, tell};
use scasp_command_words::WordErr;
use scasp_io::{Files, Sink};
use std::alloc::Global;

const USAGE_LINE: &[u8] =
    b"usage: scasp_view PROGRAM | PROGRAM ANSWERS [--checks] [--once] [--query Q] [--plain] | at FILE BYTE\n";

/// What the words ask to be shown, or the line that tells how they are written.
fn shown_for<F: Files>(alloc: Global, words: &Vec<String>, files: &mut F) -> Halt
    ensures { IfLine result (Outputs (asked_of (map string_bytes words.now.items)) (outside (F.told files.old) (F.faults files.old) (F.faults files.new))) }
{
    match parse_words(alloc, words) {
        Ok(Asked::Place(place)) => place_shown(alloc, &place, files),
        Ok(Asked::Program { file }) => program_shown(alloc, file.as_str(), files),
        Ok(
            Asked::Answers {
                program,
                answers,
                options,
            },
        ) => { answers_shown(alloc, program.as_str(), answers.as_str(), options, files) }
        Err(WordErr::Usage) => line(alloc, USAGE_LINE, Status::Usage),
        Err(WordErr::Memory) => Halt::Memory,
    }
}

/// Shows what the words ask for; the status is one of `scasp`.
pub fn view<F: Files, K: Sink>(
    alloc: Global,
    words: &Vec<String>,
    files: &mut F,
    out: &mut K,
) -> Status
    ensures reports { Reports (Outputs (asked_of (map string_bytes words.now.items)) (outside (F.told files.old) (F.faults files.old) (F.faults files.new))) (K.taken out.old) (K.taken out.new) (K.faults out.old) (K.faults out.new) result }
    ensures read { result ≡ Status.Read → HasReadFault (asked_of (map string_bytes words.now.items)) (outside (F.told files.old) (F.faults files.old) (F.faults files.new)) }
    ensures write { result ≡ Status.Write → Rose (K.faults out.old) (K.faults out.new) }

    // Nothing but a fault that was counted, and want of memory, keeps the text that is asked for from being shown whole.
    ensures complete { ¬ HasReadFault (asked_of (map string_bytes words.now.items)) (outside (F.told files.old) (F.faults files.old) (F.faults files.new))
        → ¬ Rose (K.faults out.old) (K.faults out.new)
        → TakesWhole (λ text. Outputs (asked_of (map string_bytes words.now.items)) (without_faults (outside (F.told files.old) (F.faults files.old) (F.faults files.new))) text result) (K.taken out.old) (K.taken out.new) }
{
    let halt = shown_for(alloc, words, files);
    tell(&halt, out)
}
