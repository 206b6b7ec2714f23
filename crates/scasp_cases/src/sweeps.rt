//! Steps that carry out one command many times.
use crate::stop::{Stop, expect, number_of};
use crate::world::{Device, SOUND, World, name_of};
use scasp_print_words::{put, put_number};
use scasp_top::Status;
use std::alloc::Global;
use std::str;

/// Whether the write of this number, of so many bytes at most, failed behind this part of the text, or was not reached.
fn is_part(part: &[u8], text: &[u8], chunk: u64, number: u64) -> bool {
    let len = part.len() as u64;
    let before = number.saturating_sub(1);
    let is_met = before <= len && len <= before.saturating_mul(chunk);
    text.starts_with(part) && (is_met || part.len() == text.len())
}

/// The command, of which the write of this number fails, prints a first part of the text, or all of it with this status; whether
/// it is all.
fn is_whole(
    alloc: Global,
    world: &mut World,
    words: &[&str],
    device: Device,
    text: &[u8],
    status: &str,
) -> Result<bool, Stop> {
    world.carry_out(alloc, words, device)?;
    let part = world.printed.as_slice();
    let whole = part.len() == text.len();
    let wanted = if whole {
        status
    } else {
        name_of(Status::Write)
    };
    expect(is_part(part, text, device.chunk, device.failing_write))?;
    expect(name_of(world.status) == wanted)?;
    Ok(whole)
}

/// Each write of so many bytes fails once, up to the one of this number, which is not reached.
pub fn writes(alloc: Global, world: &mut World, rest: &[&str], text: &[u8]) -> Result<(), Stop> {
    let [status, chunk, last, words @ ..] = rest else {
        return Err(Stop::NoStep);
    };
    let chunk = number_of(chunk)?;
    let mut whole = false;
    for before in 0..number_of(last)? {
        let device = Device {
            chunk,
            failing_write: before + 1,
            ..SOUND
        };
        whole = is_whole(alloc, world, words, device, text, status)?;
    }
    expect(whole)
}

/// The line of a file that ends too early, of which the last line begins here.
fn cut_line(alloc: Global, line: usize) -> Result<Vec<u8>, Stop> {
    let mut text = Vec::from_slice(alloc, b"text answers ")?;
    put_number(&mut text, line as u64)?;
    put(&mut text, " Cut\n")?;
    Ok(text)
}

/// Whether the length is among the lines of the text.
fn is_listed(text: &str, length: usize) -> bool {
    text.split('\n').any(|line| line.parse() == Ok(length))
}

/// The command, over so much of the file, of which the last line begins at `line`, tells that it ends too early, unless it may.
fn cut_is_told(
    alloc: Global,
    world: &mut World,
    words: &[&str],
    may_end: bool,
    line: usize,
) -> Result<(), Stop> {
    world.carry_out(alloc, words, SOUND)?;
    if may_end {
        return expect(world.status == Status::Done);
    }
    let wanted = cut_line(alloc, line)?;
    expect(world.status == Status::Text && world.printed.as_slice() == wanted.as_slice())
}

/// The command, over each first part of the file, tells that it ends too early, but for parts of the lengths that the text lists.
pub fn cuts(alloc: Global, world: &mut World, rest: &[&str], text: &[u8]) -> Result<(), Stop> {
    let ([name, words @ ..], Ok(lengths)) = (rest, str::from_utf8(text)) else {
        return Err(Stop::NoStep);
    };
    let whole = Vec::from_slice(alloc, world.file(name)?)?;
    let mut line = 0;
    let mut part = Vec::new(alloc);
    for (length, byte) in whole.as_slice().iter().enumerate() {
        world.put_file(alloc, name, Vec::from_slice(alloc, part.as_slice())?)?;
        cut_is_told(alloc, world, words, is_listed(lengths, length), line)?;
        part.push(*byte)?;
        if *byte == b'\n' {
            line = part.len();
        }
    }
    Ok(())
}
