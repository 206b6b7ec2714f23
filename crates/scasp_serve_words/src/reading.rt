//! The commands in a file.
ghost use Rattle.std.specs.Prelude.{◌≡◌, Ok, IfOk, IfErr};
ghost use Rattle.scasp_serve_words.specs.Reading.{Refuses, commands_in};

use crate::command::{Command, command_in};
use crate::error::CommandsErr;
use crate::words::place_of;
use std::alloc::Global;

/// The commands that the bytes spell, a line each.
///
/// # Errors
///
/// `Line` with the place of the first line that is no command or lacks its end; `Memory` for want of memory.
pub fn read_commands(alloc: Global, bytes: &[u8]) -> Result<Vec<Command>, CommandsErr>
    ensures ok { IfOk result (λ commands. commands_in bytes.now ≡ Ok commands.items) }
    ensures err { IfErr result (Refuses (commands_in bytes.now)) }
{
    let mut commands = Vec::new(alloc);
    let mut rest = bytes;
    let mut at = 0;
    while !rest.is_empty() {
        let len = place_of(b'\n', rest);
        if len == rest.len() {
            return Err(CommandsErr::Line { at: at as u64 });
        }
        let Some(command) = command_in(&rest[..len]) else {
            return Err(CommandsErr::Line { at: at as u64 });
        };
        commands.push(command)?;
        rest = &rest[len + 1..];
        at += len + 1;
    }
    Ok(commands)
}
