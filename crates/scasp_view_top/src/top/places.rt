//! The place of a byte of a file.
ghost use Rattle.std.specs.Prelude.{◌≤◌, length, take, drop};
ghost use Rattle.scasp_command_inputs.specs.Halts.{IfLine};
ghost use Rattle.scasp_command_inputs.specs.Inputs.{Says, outside};
ghost use Rattle.scasp_command_inputs.specs.declared.status.Status.TheVariants.{Done};
ghost use Rattle.scasp_view_top.specs.Place.Places.{place_text};
ghost use Rattle.scasp_view_top.specs.Top.Places.{TellsPlace, TellsPlaceIn};

use crate::place::print_place;
use crate::top::texts::numbered_line;
use crate::words::Place;
use scasp_command_inputs::{Halt, Status, line};
use scasp_io::{Files, ReadErr, read_file};
use scasp_list::Memory;
use std::alloc::Global;

/// The longest file that is read, as long as the longest file of answers.
const BYTE_LIMIT: u64 = 67_108_864;

/// The place of the byte, told.
fn place_line(alloc: Global, bytes: &[u8], byte: u64) -> Halt
    requires { byte ≤ length bytes.now }
    ensures { IfLine result (Says (place_text (take byte bytes.now) (drop byte bytes.now)) Done) }
{
    let (before, behind) = bytes.split_at(byte as usize);
    match print_place(alloc, before, behind) {
        Ok(text) => Halt::Line(text, Status::Done),
        Err(Memory) => Halt::Memory,
    }
}

/// The place of the byte, told; or the line that tells how many bytes there are, where it lies past them.
fn place_in_bytes(alloc: Global, bytes: &[u8], byte: u64) -> Halt
    ensures { IfLine result (TellsPlaceIn bytes.now byte) }
{
    let len = bytes.len() as u64;
    if len < byte {
        numbered_line(alloc, "text file ", len, " Cut\n", Status::Text)
    } else {
        place_line(alloc, bytes, byte)
    }
}

/// The place of the byte of a file, told; or the line that tells why there is none.
fn place_in_file<F: Files>(alloc: Global, file: &str, byte: u64, files: &mut F) -> Halt
    ensures { IfLine result (TellsPlace (outside (F.told files.old) (F.faults files.old) (F.faults files.new)) file.now byte) }
{
    match read_file(alloc, files, file, BYTE_LIMIT) {
        Ok(bytes) => place_in_bytes(alloc, bytes.as_slice(), byte),
        Err(ReadErr::Fault) => line(alloc, b"read file\n", Status::Read),
        Err(ReadErr::TooLong) => {
            numbered_line(alloc, "limit file ", BYTE_LIMIT, " bytes\n", Status::Limit)
        }
        Err(ReadErr::Memory) => Halt::Memory,
    }
}

/// The place that is asked for, told; or the line that tells why there is none.
pub(crate) fn place_shown<F: Files>(alloc: Global, place: &Place, files: &mut F) -> Halt
    ensures { IfLine result (TellsPlace (outside (F.told files.old) (F.faults files.old) (F.faults files.new)) place.now.file place.now.byte) }
{
    place_in_file(alloc, place.file.as_str(), place.byte, files)
}
