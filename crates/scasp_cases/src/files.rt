//! Files of cases.
use crate::pieces::put_piece;
use crate::steps::{Step, carry_out};
use crate::stop::Stop;
use crate::world::{World, name_of};
use scasp_io::{Files, Memory, OutputErr, Sink, SinkFault, write_all};
use scasp_print_words::{put, put_number};
use std::alloc::Global;

/// The most that is told of what was printed.
const SHOWN: usize = 2_000;

/// A case that is carried out.
#[derive(Drop)]
struct Case<'a> {
    /// None before the first case.
    name: Option<&'a str>,
    /// Whether each step so far went as it should.
    is_right: bool,
    /// Whether each step of each case did.
    all_right: bool,
}

/// Puts how the last command ended, and the first part of what it printed.
fn put_printed(text: &mut Vec<u8>, world: &World) -> Result<(), Memory> {
    put(text, "\n")?;
    put(text, name_of(world.status))?;
    put(text, "\n")?;
    let printed = world.printed.as_slice();
    text.extend_from_slice(printed.get(..SHOWN).unwrap_or(printed))?;
    put(text, "\n")
}

/// What is told of a step that did not go as it should.
fn difference(alloc: Global, world: &World, step: &Step, stop: Stop) -> Result<Vec<u8>, Memory> {
    let mut text = Vec::from_slice(alloc, b"no, line ")?;
    put_number(&mut text, step.number as u64)?;
    put(&mut text, ": ")?;
    put(&mut text, step.line)?;
    match stop {
        Stop::NoStep => put(&mut text, "\nis no step\n")?,
        Stop::Memory => put(&mut text, "\nwant of memory\n")?,
        Stop::Differs => put_printed(&mut text, world)?,
    }
    Ok(text)
}

/// Tells of the case, which ends, if all its steps went as they should.
fn tell<K: Sink>(case: &Case, out: &mut K) -> Result<(), SinkFault> {
    match case.name {
        Some(name) if case.is_right => {
            write_all(out, b"ok ")?;
            write_all(out, name.as_bytes())?;
            write_all(out, b"\n")
        }
        Some(_) | None => Ok(()),
    }
}

/// Carries out the step of the case, unless an earlier one did not go as it should, and tells where this one does not.
fn go_on<F: Files, K: Sink>(
    alloc: Global,
    disk: &mut F,
    world: &mut World,
    case: &mut Case,
    step: &Step,
    out: &mut K,
) -> Result<(), OutputErr> {
    if !case.is_right {
        return Ok(());
    }
    if let Err(stop) = carry_out(alloc, disk, world, step) {
        case.is_right = false;
        case.all_right = false;
        let text = difference(alloc, world, step, stop)?;
        write_all(out, text.as_slice())?;
    }
    Ok(())
}

/// Begins a case where the line of the step says so, and else goes on with the one that was begun.
fn take<'a, F: Files, K: Sink>(
    alloc: Global,
    disk: &mut F,
    world: &mut World,
    case: &mut Case<'a>,
    step: &Step<'a>,
    out: &mut K,
) -> Result<(), OutputErr> {
    if step.line.is_empty() {
        return Ok(());
    }
    let Some(name) = step.line.strip_prefix("== ") else {
        return go_on(alloc, disk, world, case, step, out);
    };
    tell(case, out)?;
    case.name = Some(name);
    case.is_right = true;
    *world = World::new(alloc, disk.hash_keys());
    Ok(())
}

/// Carries out the cases of the text, and tells of each; whether all of them went as they should.
pub fn are_right<F: Files, K: Sink>(
    alloc: Global,
    disk: &mut F,
    text: &str,
    out: &mut K,
) -> Result<bool, OutputErr> {
    let mut world = World::new(alloc, disk.hash_keys());
    let mut case = Case {
        name: None,
        is_right: true,
        all_right: true,
    };
    let mut step = Step {
        line: "",
        number: 0,
        text: Vec::new(alloc),
    };
    for (place, line) in text.split('\n').enumerate() {
        if line.is_empty() || line.starts_with('%') || put_piece(&mut step.text, line)? {
            continue;
        }
        take(alloc, disk, &mut world, &mut case, &step, out)?;
        step = Step {
            line,
            number: place.saturating_add(1),
            text: Vec::new(alloc),
        };
    }
    take(alloc, disk, &mut world, &mut case, &step, out)?;
    tell(&case, out)?;
    Ok(case.all_right)
}
