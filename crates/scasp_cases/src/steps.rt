//! The steps of cases.
use crate::programs::{counts, entries, program, trial};
use crate::searches::{answers, events};
use crate::slices::{agree, pauses, slices};
use crate::stop::{Stop, expect, number_of};
use crate::sweeps::{cuts, writes};
use crate::world::{World, name_of};
use scasp_io::{Files, read_file};
use std::alloc::Global;

/// The longest file that is read.
pub const LONGEST: u64 = 4_000_000;

/// A step: its line, and the text below it.
#[derive(Drop)]
pub struct Step<'a> {
    pub line: &'a str,
    pub number: usize,
    pub text: Vec<u8>,
}

/// The file of this name has the text.
fn file(alloc: Global, world: &mut World, rest: &[&str], text: &[u8]) -> Result<(), Stop> {
    let [name] = rest else {
        return Err(Stop::NoStep);
    };
    Ok(world.put_file(alloc, name, Vec::from_slice(alloc, text)?)?)
}

/// The file of this name has the bytes of the one on the disk.
fn load<F: Files>(
    alloc: Global,
    disk: &mut F,
    world: &mut World,
    rest: &[&str],
) -> Result<(), Stop> {
    let [name, path] = rest else {
        return Err(Stop::NoStep);
    };
    let Ok(bytes) = read_file(alloc, disk, path, LONGEST) else {
        return Err(Stop::NoStep);
    };
    Ok(world.put_file(alloc, name, bytes)?)
}

/// The file of this name has what was printed.
fn keep(alloc: Global, world: &mut World, rest: &[&str]) -> Result<(), Stop> {
    let [name] = rest else {
        return Err(Stop::NoStep);
    };
    let printed = Vec::from_slice(alloc, world.printed.as_slice())?;
    Ok(world.put_file(alloc, name, printed)?)
}

/// The text is what a change takes the place of.
fn old(alloc: Global, world: &mut World, text: &[u8]) -> Result<(), Stop> {
    world.old = Vec::from_slice(alloc, text)?;
    Ok(())
}

/// Where the text first stands in the bytes.
fn place_of(bytes: &[u8], text: &[u8]) -> Option<usize> {
    for at in 0..bytes.len() {
        if bytes[at..].starts_with(text) {
            return Some(at);
        }
    }
    None
}

/// The bytes with the new text in place of the first old one.
fn changed(alloc: Global, bytes: &[u8], old: &[u8], new: &[u8]) -> Result<Vec<u8>, Stop> {
    let Some(at) = place_of(bytes, old) else {
        return Err(Stop::NoStep);
    };
    let mut all = Vec::from_slice(alloc, bytes.get(..at).unwrap_or(bytes))?;
    all.extend_from_slice(new)?;
    all.extend_from_slice(bytes.get(at.saturating_add(old.len())..).unwrap_or(&[]))?;
    Ok(all)
}

/// The second file is the first one with the text in place of the old text.
fn change(alloc: Global, world: &mut World, rest: &[&str], text: &[u8]) -> Result<(), Stop> {
    let [from, name] = rest else {
        return Err(Stop::NoStep);
    };
    let made = changed(alloc, world.file(from)?, world.old.as_slice(), text)?;
    Ok(world.put_file(alloc, name, made)?)
}

/// The second file has the bytes of the first one.
fn copy(alloc: Global, world: &mut World, rest: &[&str]) -> Result<(), Stop> {
    let [from, name] = rest else {
        return Err(Stop::NoStep);
    };
    let bytes = Vec::from_slice(alloc, world.file(from)?)?;
    Ok(world.put_file(alloc, name, bytes)?)
}

/// The second file has so many first bytes of the first one.
fn cut(alloc: Global, world: &mut World, rest: &[&str]) -> Result<(), Stop> {
    let [from, name, length] = rest else {
        return Err(Stop::NoStep);
    };
    let length = number_of(length)? as usize;
    let Some(part) = world.file(from)?.get(..length) else {
        return Err(Stop::NoStep);
    };
    let part = Vec::from_slice(alloc, part)?;
    Ok(world.put_file(alloc, name, part)?)
}

/// The device has this number for what the word says.
fn device(world: &mut World, rest: &[&str]) -> Result<(), Stop> {
    let [what, number] = rest else {
        return Err(Stop::NoStep);
    };
    let number = number_of(number)?;
    match *what {
        "chunk" => world.device.chunk = number,
        "read" => world.device.failing_read = number,
        "write" => world.device.failing_write = number,
        _ => return Err(Stop::NoStep),
    }
    Ok(())
}

/// Carries out the command; it ends with this status.
fn ended(alloc: Global, world: &mut World, rest: &[&str]) -> Result<(), Stop> {
    let [status, words @ ..] = rest else {
        return Err(Stop::NoStep);
    };
    world.carry_out(alloc, words, world.device)?;
    expect(name_of(world.status) == *status)
}

/// The command prints the text.
fn prints(alloc: Global, world: &mut World, rest: &[&str], text: &[u8]) -> Result<(), Stop> {
    ended(alloc, world, rest)?;
    expect(world.printed.as_slice() == text)
}

/// What the command prints ends with the text.
fn ends(alloc: Global, world: &mut World, rest: &[&str], text: &[u8]) -> Result<(), Stop> {
    ended(alloc, world, rest)?;
    expect(world.printed.as_slice().ends_with(text))
}

/// What was printed has so many lines.
fn lines(world: &mut World, rest: &[&str]) -> Result<(), Stop> {
    let [number] = rest else {
        return Err(Stop::NoStep);
    };
    let found = world
        .printed
        .as_slice()
        .iter()
        .filter(|byte| **byte == b'\n');
    expect(number_of(number)? == found.count() as u64)
}

/// Carries out the step.
pub fn carry_out<F: Files>(
    alloc: Global,
    disk: &mut F,
    world: &mut World,
    step: &Step,
) -> Result<(), Stop> {
    let words: Vec<&str> = step.line.split(' ').collect(alloc)?;
    let Some((kind, rest)) = words.as_slice().split_first() else {
        return Err(Stop::NoStep);
    };
    let text = step.text.as_slice();
    match *kind {
        "file" => file(alloc, world, rest, text),
        "load" => load(alloc, disk, world, rest),
        "copy" => copy(alloc, world, rest),
        "keep" => keep(alloc, world, rest),
        "old" => old(alloc, world, text),
        "change" => change(alloc, world, rest, text),
        "cut" => cut(alloc, world, rest),
        "device" => device(world, rest),
        "prints" => prints(alloc, world, rest, text),
        "ends" => ends(alloc, world, rest, text),
        "lines" => lines(world, rest),
        "writes" => writes(alloc, world, rest, text),
        "cuts" => cuts(alloc, world, rest, text),
        "program" => program(alloc, world, rest, text),
        "counts" => counts(alloc, world, rest),
        "entries" => entries(alloc, world, rest),
        "trial" => trial(alloc, world, rest, text),
        "events" => events(alloc, world, rest, text),
        "answers" => answers(alloc, world, rest),
        "slices" => slices(alloc, world, rest, text),
        "pauses" => pauses(alloc, world, rest),
        "agree" => agree(alloc, world, rest),
        _ => Err(Stop::NoStep),
    }
}
