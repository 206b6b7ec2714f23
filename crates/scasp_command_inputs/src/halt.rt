//! What is printed where no program is run and no answers are checked.
ghost use Rattle.scasp_command_inputs.specs.Halts.{IfLine, Tells};
ghost use Rattle.scasp_command_inputs.specs.Inputs.{Says};
ghost use Rattle.scasp_command_inputs.specs.Reports.{Reports};

use crate::status::Status;
use scasp_io::{Sink, write_all};
use std::alloc::Global;

/// Why a command goes no further.
#[derive(Drop)]
pub enum Halt {
    /// This line is printed, and so the command ends.
    Line(Vec<u8>, Status),
    /// Want of memory.
    Memory,
}

/// The line, with its end.
pub fn line(alloc: Global, text: &[u8], status: Status) -> Halt
    ensures { IfLine result (Says text.now status) }
{
    match Vec::from_slice(alloc, text) {
        Ok(text) => Halt::Line(text, status),
        Err(_) => Halt::Memory,
    }
}

/// Prints the text, and says how the command ends.
pub fn print<K: Sink>(text: &[u8], status: Status, out: &mut K) -> Status
    ensures { Reports (Says text.now status) (K.taken out.old) (K.taken out.new) (K.faults out.old) (K.faults out.new) result }
{
    match write_all(out, text) {
        Ok(()) => status,
        Err(_) => Status::Write,
    }
}

/// Prints the line, if there is one.
pub fn tell<K: Sink>(halt: &Halt, out: &mut K) -> Status
    ensures { Reports (Tells halt.now) (K.taken out.old) (K.taken out.new) (K.faults out.old) (K.faults out.new) result }
{
    match halt {
        Halt::Line(text, status) => print(text.as_slice(), *status, out),
        Halt::Memory => Status::Memory,
    }
}
