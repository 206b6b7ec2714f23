//! Lines that tell a number.
ghost use Rattle.std.specs.Prelude.{◌≡◌, ◌++◌, IfOk, decimal};
ghost use Rattle.scasp_command_inputs.specs.Halts.{IfLine};
ghost use Rattle.scasp_command_inputs.specs.Inputs.{Says};

use scasp_command_inputs::{Halt, Status};
use scasp_list::Memory;
use scasp_print_words::{put, put_number};
use std::alloc::Global;

/// The number between two texts.
fn numbered_text(alloc: Global, first: &str, number: u64, last: &str) -> Result<Vec<u8>, Memory>
    ensures { IfOk result (λ text. text.items ≡ first.now ++ decimal number ++ last.now) }
{
    let mut text = Vec::new(alloc);
    put(&mut text, first)?;
    put_number(&mut text, number)?;
    put(&mut text, last)?;
    Ok(text)
}

/// The same as a line with which a command ends.
pub(crate) fn numbered_line(
    alloc: Global,
    first: &str,
    number: u64,
    last: &str,
    status: Status,
) -> Halt
    ensures { IfLine result (Says (first.now ++ decimal number ++ last.now) status) }
{
    match numbered_text(alloc, first, number, last) {
        Ok(text) => Halt::Line(text, status),
        Err(Memory) => Halt::Memory,
    }
}
