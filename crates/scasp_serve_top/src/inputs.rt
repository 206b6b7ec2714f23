//! The commands in a file.
ghost use Rattle.std.specs.Prelude.{◌≡◌, ◌≤◌, ℕ, List, Ok, IfOk, IfErr};
ghost use Rattle.scasp_command_inputs.specs.Halts.{IfLine};
ghost use Rattle.scasp_command_inputs.specs.Inputs.{outside};
ghost use Rattle.scasp_serve_top.specs.Inputs.{AreCommands, HasNoCommands, RefusesLine};
ghost use Rattle.scasp_serve_words.specs.Reading.{commands_in};

use scasp_command_inputs::{Halt, Input, Status, line, refusal};
use scasp_io::{Files, ReadErr, read_file};
use scasp_serve_words::{Command, CommandsErr, read_commands};
use std::alloc::Global;

/// The longest file that is read.
const BYTE_LIMIT: u64 = 4_194_304;

/// The commands that the bytes spell; or the line that tells which line is none.
fn commands_in_bytes(alloc: Global, bytes: &[u8]) -> Result<Vec<Command>, Halt>
    ensures ok { IfOk result (λ commands. commands_in bytes.now ≡ Ok commands.items) }
    ensures err { IfErr result (λ halt. IfLine halt (RefusesLine bytes.now)) }
{
    match read_commands(alloc, bytes) {
        Ok(commands) => Ok(commands),
        Err(CommandsErr::Line { at }) => Err(refusal(alloc, Input::Commands, at, false, "Line")),
        Err(CommandsErr::Memory) => Err(Halt::Memory),
    }
}

/// The commands in a file; or the line that tells why there are none.
pub(crate) fn commands_in_file<F: Files>(
    alloc: Global,
    file: &str,
    files: &mut F,
) -> Result<Vec<Command>, Halt>
    ensures ok { IfOk result (λ commands. AreCommands (F.told files.old file.now) commands.items) }
    ensures err { IfErr result (λ halt. IfLine halt (HasNoCommands (outside (F.told files.old) (F.faults files.old) (F.faults files.new)) file.now)) }
    ensures counts { (other : List ℕ) → F.faults files.old other ≤ F.faults files.new other }
{
    match read_file(alloc, files, file, BYTE_LIMIT) {
        Ok(bytes) => commands_in_bytes(alloc, bytes.as_slice()),
        Err(ReadErr::Fault) => Err(line(alloc, b"read commands\n", Status::Read)),
        Err(ReadErr::TooLong) => Err(refusal(alloc, Input::Commands, BYTE_LIMIT, true, "bytes")),
        Err(ReadErr::Memory) => Err(Halt::Memory),
    }
}
