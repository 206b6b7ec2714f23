//! Whether a subtree, moved to where another stands, is the other.
ghost use Rattle.std.specs.Prelude.{◌≡◌, ◌+◌, ◌-◌, ◌<◌, ◌≤◌, ◌^◌, ◌==◌, ◌++◌, true, false, length, map, decimal, IfOk, MatchOption};
ghost use Rattle.std.specs.Str.{bytes_eq};
ghost use Rattle.scasp_copies.specs.Copies.{is_inside, moved_number, moved_piece, moved_words, before_digits};
ghost use Rattle.scasp_copies.specs.Pieces.{same_pieces};
ghost use Rattle.scasp_print_shared.specs.Inside.Lines.{read, read_all, move_of};

use crate::lines::Line;
use crate::words::{before_digits, last_number, names_line};
use scasp_name::Memory;
use scasp_print_words::put_number;
use std::alloc::Global;

/// So many lines from number `from` on stand at number `to` and behind it; the first of them stood at `top`, and stands at
/// `depth`.
#[derive(Clone, Copy)]
pub(crate) struct Shift {
    pub(crate) from: u64,
    pub(crate) count: u64,
    pub(crate) to: u64,
    pub(crate) top: usize,
    pub(crate) depth: usize,
}

/// The number that a number moves to, where it is of a line inside.
fn moved_number(shift: Shift, number: u64) -> Option<u64>
    requires { shift.to + shift.count < 2 ^ 64 }
    ensures { MatchOption result (is_inside (move_of shift) number ≡ false) (λ moved. (is_inside (move_of shift) number ≡ true) × (moved ≡ moved_number (move_of shift) number)) }
{
    if number < shift.from || number - shift.from >= shift.count {
        return None;
    }
    Some(shift.to + (number - shift.from))
}

/// The number that the words have at their end where they are moved, if it changes.
fn number_inside(shift: Shift, words: &[u8]) -> Option<u64>
    requires room { shift.to + shift.count < 2 ^ 64 }
    requires forward { shift.from ≤ shift.to }
    ensures { MatchOption result (moved_words (move_of shift) words.now ≡ words.now) (λ moved. moved_words (move_of shift) words.now ≡ before_digits words.now ++ decimal moved) }
{
    if !names_line(words) {
        return None;
    }
    match last_number(words) {
        None => None,
        Some(number) => moved_number(shift, number),
    }
}

/// Whether the words, moved, are the others.
fn same_words(alloc: Global, shift: Shift, words: &[u8], others: &[u8]) -> Result<bool, Memory>
    requires room { shift.to + shift.count < 2 ^ 64 }
    requires forward { shift.from ≤ shift.to }
    ensures { IfOk result (λ same. same ≡ bytes_eq (moved_words (move_of shift) words.now) others.now) }
{
    match number_inside(shift, words) {
        None => Ok(words == others),
        Some(number) => {
            let mut moved = Vec::from_slice(alloc, before_digits(words))?;
            put_number(&mut moved, number)?;
            Ok(moved.as_slice() == others)
        }
    }
}

/// Whether the depth of a line, moved, is the other.
fn same_depth(shift: Shift, depth: usize, other: usize) -> bool
    ensures { result ≡ (shift.depth + (depth - shift.top) == other) }
{
    other >= shift.depth && other - shift.depth == depth.saturating_sub(shift.top)
}

/// Whether the lines, moved, are the others.
pub(crate) fn same_lines(
    alloc: Global,
    shift: Shift,
    lines: &[Line<'_>],
    others: &[Line<'_>],
) -> Result<bool, Memory>
    requires room { shift.to + shift.count < 2 ^ 64 }
    requires forward { shift.from ≤ shift.to }
    requires size { length lines.now ≡ length others.now }
    ensures { IfOk result (λ same. same ≡ same_pieces (map (moved_piece (move_of shift) shift.top shift.depth) (read_all lines.now)) (read_all others.now)) }
{
    for (k, line) in lines.iter().enumerate() {
        let other = others[k];
        if !same_depth(shift, line.depth, other.depth)
            || !same_words(alloc, shift, line.words, other.words)?
        {
            return Ok(false);
        }
    }
    Ok(true)
}
