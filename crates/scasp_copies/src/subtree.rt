//! A subtree, as it stands in a copy.
ghost use Rattle.std.specs.Prelude.{◌≡◌, ◌≤◌, length, take, flat_map, nat_lt, nat_le, map, IfOk};
ghost use Rattle.std.specs.Option.{option_map};
ghost use Rattle.std.specs.List.{prefix_len};
ghost use Rattle.scasp_copies.specs.Copies as spec;
ghost use Rattle.scasp_copies.specs.Pieces.{piece_text};
ghost use Rattle.scasp_copies.specs.View.{pieces_of, waiting_of, moved_by, stands_for};
ghost use Rattle.scasp_copies.specs.declared.line.BlockLine.{BlockLine as Line};

use crate::line::BlockLine;
use crate::moving::Moving;
use scasp_list::Memory;
use std::alloc::Global;

/// The lines of a subtree, and how they are moved to where a copy stands.
#[derive(Drop)]
pub struct Subtree<'t, 'a> {
    lines: &'t [BlockLine<'a>],
    moving: Moving,
}

/// How many lines at the front are deeper.
fn count_deeper(lines: &[BlockLine<'_>], depth: usize) -> usize
    ensures count { result ≡ prefix_len (λ (l : Line). nat_lt depth l.depth) lines.now }
    ensures within { result ≤ length lines.now }
{
    lines.iter().take_while(|line| line.depth > depth).count()
}

/// How many lines the subtree at the front has.
fn subtree_len(lines: &[BlockLine<'_>]) -> usize
    ensures count { result ≡ length (spec.subtree (pieces_of lines.now)) }
    ensures within { result ≤ length lines.now }
{
    match lines {
        [] => 0,
        [first, rest @ ..] => 1 + count_deeper(rest, first.depth),
    }
}

/// Whether the subtree at the front, which has `count` lines, has ended where the next line is at the depth `depth`.
fn has_ended(lines: &[BlockLine<'_>], count: usize, depth: usize) -> bool
    requires { count ≡ length (spec.subtree (pieces_of lines.now)) }
    ensures { result ≡ spec.has_ended depth (pieces_of lines.now) }
{
    match lines {
        [] => false,
        [first, ..] => count < lines.len() || depth <= first.depth,
    }
}

/// The subtree at the front of the lines from the number `from` on, as it stands at the number `to` and the depth `depth`,
/// if it is a call's and has ended there.
pub(crate) fn subtree_at<'t, 'a>(
    lines: &'t [BlockLine<'a>],
    from: usize,
    depth: usize,
    to: usize,
) -> Option<Subtree<'t, 'a>>
    ensures { option_map stands_for result ≡ spec.copied from depth to (pieces_of lines.now) }
{
    let [first, ..] = lines else {
        return None;
    };
    let count = subtree_len(lines);
    if !first.is_call() || !has_ended(lines, count, depth) {
        return None;
    }
    let moving = Moving {
        from,
        count,
        to,
        top: first.depth,
        depth,
    };
    Some(Subtree {
        lines: &lines[..count],
        moving,
    })
}

/// The lines as they stand in the copy, the last one first.
fn moved_lines<'a>(
    alloc: Global,
    lines: &[BlockLine<'a>],
    moving: Moving,
) -> Result<Vec<BlockLine<'a>>, Memory>
    ensures { IfOk result (λ made. waiting_of made.items ≡ map (moved_by moving) (pieces_of lines.now)) }
{
    let mut made = Vec::new(alloc);
    for place in (0..lines.len()).rev() {
        made.push(lines[place].moved(alloc, moving)?)?;
    }
    Ok(made)
}

impl<'t, 'a> Subtree<'t, 'a> {
    /// Whether the copy has at most so many bytes.
    pub fn fits(&self, room: usize) -> bool
        ensures { result ≡ nat_le (length (flat_map piece_text (stands_for self.now))) room }
    {
        let mut left = room;
        for line in self.lines {
            match line.room_behind(self.moving, left) {
                Some(behind) => left = behind,
                None => return false,
            }
        }
        true
    }

    /// The lines of the copy, the last one first.
    pub fn copy(&self, alloc: Global) -> Result<Vec<BlockLine<'a>>, Memory>
        ensures { IfOk result (λ made. waiting_of made.items ≡ stands_for self.now) }
    {
        moved_lines(alloc, self.lines, self.moving)
    }

    /// The first line of the copy.
    pub fn first(&self, alloc: Global) -> Result<Vec<BlockLine<'a>>, Memory>
        ensures { IfOk result (λ made. waiting_of made.items ≡ take 1 (stands_for self.now)) }
    {
        moved_lines(alloc, &self.lines[..self.lines.len().min(1)], self.moving)
    }
}
