//! The line and the column of a byte in a text, and these told with the line and a mark below the place.
ghost use Rattle.std.specs.Prelude.{◌≡◌, ◌++◌, IfOk, OnOk};
ghost use Rattle.scasp_view_top.specs.Place.Places as spec;

mod columns;
mod lines;

use crate::place::columns::{first_bytes, put_blanks};
use crate::place::lines::{first_line, last_line, line_number};
use scasp_list::Memory;
use scasp_print_words::{put, put_number};
use std::alloc::Global;

/// The first bytes of the characters of the line up to the place, that of the place last.
fn reached(alloc: Global, before: &[u8], behind: &[u8]) -> Result<Vec<u8>, Memory>
    ensures { IfOk result (λ firsts. firsts.items ≡ spec.reached before.now behind.now) }
{
    let mut line = Vec::from_slice(alloc, last_line(before))?;
    match behind.first() {
        Some(byte) => line.push(*byte)?,
        None => line.push(b'\n')?,
    }
    first_bytes(alloc, line.as_slice())
}

/// Puts the line and the column at the end.
#[tactic(auto, unfolding(crate::specs::Place::Places::numbers_text))]
fn put_numbers(out: &mut Vec<u8>, line: u64, column: u64) -> Result<(), Memory>
    ensures { OnOk result (out.new.items ≡ out.old.items ++ spec.numbers_text line column) }
{
    put(out, "line ")?;
    put_number(out, line)?;
    put(out, ", column ")?;
    put_number(out, column)?;
    put(out, "\n")
}

/// Puts the line that is parted here at the end.
#[tactic(auto, unfolding(crate::specs::Place::Places::line_text))]
fn put_line(out: &mut Vec<u8>, before: &[u8], behind: &[u8]) -> Result<(), Memory>
    ensures { OnOk result (out.new.items ≡ out.old.items ++ spec.line_text before.now behind.now) }
{
    out.extend_from_slice(last_line(before))?;
    out.extend_from_slice(first_line(behind))?;
    put(out, "\n")
}

/// Puts a mark at the end that stands below the last of these characters.
#[tactic(auto, unfolding(crate::specs::Place::Places::mark_text))]
fn put_mark(out: &mut Vec<u8>, firsts: &[u8]) -> Result<(), Memory>
    ensures { OnOk result (out.new.items ≡ out.old.items ++ spec.mark_text firsts.now) }
{
    put_blanks(out, &firsts[..firsts.len().saturating_sub(1)])?;
    put(out, "^\n")
}

/// The place between these bytes, told: its line and column, the text of the line, and a mark below the character that stands
/// there.
///
/// # Errors
///
/// Want of memory.
pub fn print_place(alloc: Global, before: &[u8], behind: &[u8]) -> Result<Vec<u8>, Memory>
    ensures { IfOk result (λ text. text.items ≡ spec.place_text before.now behind.now) }
{
    let firsts = reached(alloc, before, behind)?;
    let mut text = Vec::new(alloc);
    put_numbers(&mut text, line_number(before), firsts.len() as u64)?;
    put_line(&mut text, before, behind)?;
    put_mark(&mut text, firsts.as_slice())?;
    Ok(text)
}
