//! The least copy of a subtree.
ghost use Rattle.std.specs.Prelude.{◌≡◌, ℕ, ◌+◌, ◌<◌, length, take, drop, IfOk};
ghost use Rattle.scasp_print_shared.specs.Inside.Classes.{AreMarks};
ghost use Rattle.scasp_print_shared.specs.Inside.Lines.{read_all};
ghost use Rattle.scasp_print_shared.specs.Inside.Places.{listed, places_of};
ghost use Rattle.scasp_print_shared.specs.Shared as spec;

use crate::classes::Root;
use crate::lines::{Line, is_call};
use crate::moves::{Shift, same_lines};
use scasp_name::Memory;
use smallvec::SmallVec;
use std::alloc::Global;

/// Whether the subtree of line `line` is what a copy of the one at `place` gives; lines are counted from 0.
fn is_copy(
    alloc: Global,
    lines: &[Line<'_>],
    marks: &[Root],
    place: usize,
    line: usize,
) -> Result<bool, Memory>
    requires marks { AreMarks (read_all lines.now) marks.now }
    requires before { place < line }
    requires within { line < length lines.now }
    ensures { IfOk result (λ same. same ≡ spec.is_copy (take line (read_all lines.now)) (drop line (read_all lines.now)) (place + 1)) }
{
    let count = marks[line].count;
    if !is_call(lines[place]) || marks[place].count != count || count > line - place {
        return Ok(false);
    }
    let shift = Shift {
        from: place as u64 + 1,
        count: count as u64,
        to: line as u64 + 1,
        top: lines[place].depth,
        depth: lines[line].depth,
    };
    same_lines(
        alloc,
        shift,
        &lines[place..place + count],
        &lines[line..line + count],
    )
}

/// The least number whose copy is the subtree of the line.
pub(crate) fn least_copy(
    alloc: Global,
    lines: &[Line<'_>],
    marks: &[Root],
    places: &[SmallVec<usize, 1>],
    line: usize,
) -> Result<Option<usize>, Memory>
    requires marks { AreMarks (read_all lines.now) marks.now }
    requires places { (class : ℕ) → listed places.now class ≡ places_of class 0 (take line marks.now) }
    requires within { line < length lines.now }
    ensures { IfOk result (λ number. number ≡ spec.least_copy (take line (read_all lines.now)) (drop line (read_all lines.now))) }
{
    let root = marks[line];
    if root.count < 3 || root.class >= places.len() {
        return Ok(None);
    }
    for place in places[root.class].as_slice() {
        if is_copy(alloc, lines, marks, *place, line)? {
            return Ok(Some(*place + 1));
        }
    }
    Ok(None)
}
