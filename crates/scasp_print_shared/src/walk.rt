//! The numbered lines of a block, with their copies.
ghost use Rattle.std.specs.Prelude.{◌≡◌, ℕ, ◌+◌, ◌<◌, [], ◌++◌, length, take, drop, flat_map, IfOk, OnOk};
ghost use Rattle.scasp_copies.specs.Pieces.{piece_text};
ghost use Rattle.scasp_print_shared.specs.Inside.Classes.{AreMarks};
ghost use Rattle.scasp_print_shared.specs.Inside.Lines.{read_all};
ghost use Rattle.scasp_print_shared.specs.Inside.Places.{listed, places_of};
ghost use Rattle.scasp_print_shared.specs.Shared as spec;

use crate::classes::{Root, marks_of};
use crate::lines::Line;
use crate::places::add_place;
use crate::put::{put_copy, put_line};
use crate::search::least_copy;
use scasp_name::Memory;
use smallvec::SmallVec;
use std::hash::RandomState;

/// Puts the line, or the copy that stands for its subtree; gives back how many lines behind it are left out.
fn put_next(
    out: &mut Vec<u8>,
    lines: &[Line<'_>],
    marks: &[Root],
    places: &[SmallVec<usize, 1>],
    line: usize,
) -> Result<usize, Memory>
    requires marks { AreMarks (read_all lines.now) marks.now }
    requires places { (class : ℕ) → listed places.now class ≡ places_of class 0 (take line marks.now) }
    requires within { line < length lines.now }
    ensures { IfOk result (λ left_out. out.new.items ++ flat_map piece_text (spec.shared_below left_out (take (line + 1) (read_all lines.now)) (drop (line + 1) (read_all lines.now))) ≡ out.old.items ++ flat_map piece_text (spec.shared_below 0 (take line (read_all lines.now)) (drop line (read_all lines.now)))) }
{
    let alloc = *out.allocator();
    let copy = least_copy(alloc, lines, marks, places, line)?;
    match copy {
        Some(number) => {
            put_copy(out, lines[line].depth, number)?;
            Ok(marks[line].count - 1)
        }
        None => {
            put_line(out, lines[line])?;
            Ok(0)
        }
    }
}

/// Puts the numbered lines at the end, with their copies, which a table finds that is hashed by the keys.
pub(crate) fn put_shared(
    out: &mut Vec<u8>,
    lines: &[Line<'_>],
    random: RandomState,
) -> Result<(), Memory>
    ensures { OnOk result (out.new.items ≡ out.old.items ++ flat_map piece_text (spec.shared_lines [] (read_all lines.now))) }
{
    let alloc = *out.allocator();
    let marks = marks_of(alloc, lines, random)?;
    let mut places = Vec::new(alloc);
    let mut left_out = 0usize;
    for line in 0..lines.len() {
        if left_out > 0 {
            left_out -= 1;
        } else {
            left_out = put_next(out, lines, &marks, &places, line)?;
        }
        add_place(alloc, &mut places, marks[line].class, line)?;
    }
    Ok(())
}
