//! A program with the numbers of its clauses and queries.
ghost use Rattle.scasp_command_inputs.specs.Halts.{IfLine};
ghost use Rattle.scasp_command_inputs.specs.Inputs.{Says, outside};
ghost use Rattle.scasp_command_inputs.specs.declared.status.Status.TheVariants.{Done};
ghost use Rattle.scasp_view_top.specs.Program.Lines.{numbered_text};
ghost use Rattle.scasp_view_top.specs.Top.Programs.{TellsProgram};

use crate::program::print_numbered;
use scasp_command_inputs::{Halt, Status, written_in_file};
use scasp_io::Files;
use scasp_list::Memory;
use scasp_name::Names;
use scasp_syntax::Program;
use std::alloc::Global;

/// The program with its numbers.
fn numbered(alloc: Global, program: &Program, names: &Names) -> Halt
    ensures { IfLine result (Says (numbered_text names.now program.now.abducibles program.now.clauses program.now.queries) Done) }
{
    match print_numbered(alloc, program, names) {
        Ok(text) => Halt::Line(text, Status::Done),
        Err(Memory) => Halt::Memory,
    }
}

/// The program in a file as it is written, with its numbers; or the line that tells why there is none.
pub(crate) fn program_shown<F: Files>(alloc: Global, file: &str, files: &mut F) -> Halt
    ensures { IfLine result (TellsProgram (outside (F.told files.old) (F.faults files.old) (F.faults files.new)) file.now) }
{
    match written_in_file(alloc, file, files) {
        Ok((program, names)) => numbered(alloc, &program, &names),
        Err(halt) => halt,
    }
}
