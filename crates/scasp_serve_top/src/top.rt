//! The whole call.
ghost use Rattle.std.specs.Prelude.{◌≡◌, ◌⊎◌, Some, None, IsNone, IfSome, map, string_bytes};
ghost use Rattle.scasp_command_inputs.specs.Inputs.{outside, without_faults};
ghost use Rattle.scasp_command_inputs.specs.Reports.{Reports};
ghost use Rattle.scasp_io.specs.Counts.{Rose};
ghost use Rattle.scasp_io.specs.Taken.{TakesWhole};
ghost use Rattle.scasp_serve_top.specs.Outputs.{HasReadFault, Outputs, asked_of};
ghost use Rattle.scasp_serve_top.specs.Statuses.{status_of};

use crate::inputs::commands_in_file;
use crate::replies::serve_commands;
use crate::status::{ServeStatus, serve_status};
use scasp_command_inputs::{Status, print, program_in_file, tell};
use scasp_io::{Files, Sink};
use std::alloc::Global;

const USAGE_LINE: &[u8] = b"usage: scasp_serve PROGRAM COMMANDS\n";

/// Serves the commands in a file on the program in another.
fn serve_files<F: Files, K: Sink>(
    alloc: Global,
    program: &str,
    commands: &str,
    files: &mut F,
    out: &mut K,
) -> Status
    ensures { Reports (Outputs (Some (record { program = program.now; commands = commands.now })) (outside (F.told files.old) (F.faults files.old) (F.faults files.new))) (K.taken out.old) (K.taken out.new) (K.faults out.old) (K.faults out.new) result }
{
    let (program, names) = match program_in_file(alloc, program, files) {
        Ok(read) => read,
        Err(halt) => return tell(&halt, out),
    };
    match commands_in_file(alloc, commands, files) {
        Ok(commands) => serve_commands(alloc, &program, names, commands.as_slice(), out),
        Err(halt) => tell(&halt, out),
    }
}

/// The two files that the words name, if they are two words.
fn files_in(words: &[String]) -> Option<(&str, &str)>
    ensures none { IsNone result → asked_of (map string_bytes words.now) ≡ None }
    ensures some { IfSome result (λ x. asked_of (map string_bytes words.now) ≡ Some (record { program = x.0.now; commands = x.1.now })) }
{
    match words {
        [program, commands] => Some((program.as_str(), commands.as_str())),
        _ => None,
    }
}

/// Serves what the words ask for.
fn serve_words<F: Files, K: Sink>(
    alloc: Global,
    words: &[String],
    files: &mut F,
    out: &mut K,
) -> Status
    ensures { Reports (Outputs (asked_of (map string_bytes words.now)) (outside (F.told files.old) (F.faults files.old) (F.faults files.new))) (K.taken out.old) (K.taken out.new) (K.faults out.old) (K.faults out.new) result }
{
    match files_in(words) {
        Some((program, commands)) => serve_files(alloc, program, commands, files, out),
        None => print(USAGE_LINE, Status::Usage, out),
    }
}

/// Reads the program and the commands in the files that the words name, carries out the commands in order, and prints a reply to
/// each.
pub fn serve<F: Files, K: Sink>(
    alloc: Global,
    words: &Vec<String>,
    files: &mut F,
    out: &mut K,
) -> ServeStatus
    ensures reports { Reports (Outputs (asked_of (map string_bytes words.now.items)) (outside (F.told files.old) (F.faults files.old) (F.faults files.new))) (K.taken out.old) (K.taken out.new) (K.faults out.old) (K.faults out.new) (status_of result) }
    ensures read { result ≡ ServeStatus.Read → HasReadFault (asked_of (map string_bytes words.now.items)) (outside (F.told files.old) (F.faults files.old) (F.faults files.new)) }
    ensures write { result ≡ ServeStatus.Write → Rose (K.faults out.old) (K.faults out.new) }

    // Nothing but a fault that was counted, and want of memory, keeps the text that is asked for from being printed whole.
    ensures complete { ¬ HasReadFault (asked_of (map string_bytes words.now.items)) (outside (F.told files.old) (F.faults files.old) (F.faults files.new))
        → ¬ Rose (K.faults out.old) (K.faults out.new)
        → (result ≡ ServeStatus.Memory) ⊎ TakesWhole (λ text. Outputs (asked_of (map string_bytes words.now.items)) (without_faults (outside (F.told files.old) (F.faults files.old) (F.faults files.new))) text (status_of result)) (K.taken out.old) (K.taken out.new) }
{
    serve_status(serve_words(alloc, words.as_slice(), files, out))
}
