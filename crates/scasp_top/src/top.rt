//! The top call.
ghost use Rattle.std.specs.Prelude.{◌≡◌, ◌⊎◌, Some, None, map, string_bytes};
ghost use Rattle.scasp_io.specs.Counts.{Rose};
ghost use Rattle.scasp_io.specs.Lookup.{bytes_or_none};
ghost use Rattle.scasp_io.specs.Taken.{TakesWhole};
ghost use Rattle.scasp_command_words.specs.Commands.{command_of};
ghost use Rattle.scasp_command_inputs.specs.Inputs.{outside, without_faults};
ghost use Rattle.scasp_top.specs.Outputs.{HasReadFault, Outputs};
ghost use Rattle.scasp_command_inputs.specs.Reports.{Reports};

use crate::check_command::check_files;
use crate::extend_command::extend_answers;
use crate::recheck_command::recheck_programs;
use crate::run_command::{requested, run_file};
use crate::trial_command::try_nodes;
use scasp_command_inputs::{Status, print};
use scasp_command_words::{Command, WordErr, parse_words};
use scasp_io::{Files, Sink, SureFiles, SureSink};
use std::alloc::Global;

const USAGE_LINE: &[u8] =
    b"usage: scasp run FILE [--budget N] [--answers N] [--format N] | check PROGRAM ANSWERS | trial N | extend PROGRAM ANSWERS DOMAIN | recheck ANSWERS FILE FILE [FILE]..\n";

/// The whole command: reads the files that the words name, prints, and says how it ended.
pub fn scasp<F: Files, K: Sink>(
    alloc: Global,
    words: &Vec<String>,
    files: &mut F,
    out: &mut K,
) -> Status
    ensures reports { Reports (Outputs (command_of (map string_bytes words.now.items)) (outside (F.told files.old) (F.faults files.old) (F.faults files.new))) (K.taken out.old) (K.taken out.new) (K.faults out.old) (K.faults out.new) result }
    ensures read { result ≡ Status.Read → HasReadFault (command_of (map string_bytes words.now.items)) (outside (F.told files.old) (F.faults files.old) (F.faults files.new)) }
    ensures write { result ≡ Status.Write → Rose (K.faults out.old) (K.faults out.new) }

    // Nothing but a fault that was counted, and want of memory, keeps the text that is asked for from being printed whole.
    ensures complete { ¬ HasReadFault (command_of (map string_bytes words.now.items)) (outside (F.told files.old) (F.faults files.old) (F.faults files.new))
        → ¬ Rose (K.faults out.old) (K.faults out.new)
        → (result ≡ Status.Memory) ⊎ TakesWhole (λ text. Outputs (command_of (map string_bytes words.now.items)) (without_faults (outside (F.told files.old) (F.faults files.old) (F.faults files.new))) text result) (K.taken out.old) (K.taken out.new) }
{
    match parse_words(alloc, words) {
        Ok(
            Command::Run {
                file,
                budget,
                answers,
                format,
            },
        ) => run_file(
            alloc,
            file.as_str(),
            requested(budget, answers, format),
            files,
            out,
        ),
        Ok(Command::Check { program, answers }) => {
            check_files(alloc, program.as_str(), answers.as_str(), files, out)
        }
        Ok(Command::Trial { n }) => try_nodes(alloc, n, files.hash_keys(), out),
        Ok(
            Command::Extend {
                program,
                answers,
                domain,
            },
        ) => extend_answers(
            alloc,
            program.as_str(),
            answers.as_str(),
            domain.as_str(),
            files,
            out,
        ),
        Ok(
            Command::Recheck {
                answers,
                files: programs,
            },
        ) => recheck_programs(alloc, answers.as_str(), programs.as_slice(), files, out),
        Err(WordErr::Usage) => print(USAGE_LINE, Status::Usage, out),
        Err(WordErr::Memory) => Status::Memory,
    }
}

/// The whole command over files and a sink that never fail: no read and no write is ever at fault.
pub fn scasp_sure(
    alloc: Global,
    words: &Vec<String>,
    files: &mut SureFiles,
    out: &mut SureSink,
) -> Status
    ensures reports { Reports (Outputs (command_of (map string_bytes words.now.items)) (outside (λ name. Some (bytes_or_none files.old.files name)) (λ _. 0) (λ _. 0))) None None 0 0 result }
    ensures no_read { ¬ (result ≡ Status.Read) }
    ensures no_write { ¬ (result ≡ Status.Write) }
{
    scasp(alloc, words, files, out)
}
