//! The replies to all commands.
ghost use Rattle.std.specs.Prelude.{◌≡◌, ◌≤◌, IsErrOf};
ghost use Rattle.scasp_command_inputs.specs.Reports.{Reports};
ghost use Rattle.scasp_io.specs.Counts.{Rose};
ghost use Rattle.scasp_io.specs.Taken.{Writes};
ghost use Rattle.scasp_serve_top.specs.Served.{IsServed, Serves};

use scasp_command_inputs::Status;
use scasp_io::{OutputErr, Sink, write_all};
use scasp_name::Names;
use scasp_serve_replies::{Desk, reply};
use scasp_serve_words::Command;
use scasp_syntax::Program;
use std::alloc::Global;

/// Carries out the commands in order, and writes each reply before the next command.
fn write_replies<K: Sink>(
    alloc: Global,
    program: &Program,
    names: Names,
    commands: &[Command],
    out: &mut K,
) -> Result<(), OutputErr>
    ensures output { Writes (IsServed program.now names commands.now) (K.taken out.old) (K.taken out.new) result }
    ensures write { IsErrOf result OutputErr.Write → Rose (K.faults out.old) (K.faults out.new) }
    ensures counts { K.faults out.old ≤ K.faults out.new }
{
    let mut desk = Desk::new(alloc, names);
    for command in commands {
        let text = reply(alloc, program, &mut desk, *command)?;
        write_all(out, text.as_slice())?;
    }
    Ok(())
}

/// Serves the commands.
pub(crate) fn serve_commands<K: Sink>(
    alloc: Global,
    program: &Program,
    names: Names,
    commands: &[Command],
    out: &mut K,
) -> Status
    ensures { Reports (Serves program.now names commands.now) (K.taken out.old) (K.taken out.new) (K.faults out.old) (K.faults out.new) result }
{
    match write_replies(alloc, program, names, commands, out) {
        Ok(()) => Status::Done,
        Err(OutputErr::Write) => Status::Write,
        Err(OutputErr::Memory) => Status::Memory,
    }
}
