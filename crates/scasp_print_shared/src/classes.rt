//! Classes of subtrees: two subtrees have one class where they are the same but for line numbers.
ghost use Rattle.std.specs.Prelude.{◌≡◌, ◌++◌, ◌∷◌, reverse, IfOk, OnOk};
ghost use Rattle.scasp_name.specs.Texts.{with_text};
ghost use Rattle.scasp_print_shared.specs.Inside.Classes as spec;
ghost use Rattle.scasp_print_shared.specs.Inside.Lines.{read, read_all};

use crate::lines::Line;
use crate::table::{Key, Table};
use crate::words::stem;
use scasp_name::Memory;
use smallvec::SmallVec;
use std::alloc::Global;
use std::hash::RandomState;

/// A subtree: how deep its first line stands, how many lines it has, and its class.
#[derive(Clone, Copy)]
pub(crate) struct Root {
    pub(crate) depth: usize,
    pub(crate) count: usize,
    pub(crate) class: usize,
}

/// Takes the deeper subtrees away from those that stand side by side, the last first, and puts their classes at the end of
/// the list; gives back how many lines they have.
fn take_below(
    classes: &mut SmallVec<usize, 2>,
    depth: usize,
    roots: &mut Vec<Root>,
) -> Result<usize, Memory>
    ensures classes { OnOk result (classes.new.items ≡ classes.old.items ++ spec.classes_of (spec.below depth (reverse roots.old.items))) }
    ensures roots { OnOk result (reverse roots.new.items ≡ spec.beside depth (reverse roots.old.items)) }
    ensures count { IfOk result (λ count. count ≡ spec.count_of (spec.below depth (reverse roots.old.items))) }
{
    let mut count = 0usize;
    while let Some(root) = roots.pop() {
        if root.depth <= depth {
            roots.push(root)?;
            return Ok(count);
        }
        classes.push(root.class)?;
        count = count.checked_add(root.count).ok_or(Memory)?;
    }
    Ok(count)
}

/// Puts the subtree of a line before those that stand side by side.
fn add_root<'a>(
    alloc: Global,
    table: &mut Table<'a>,
    line: Line<'a>,
    roots: &mut Vec<Root>,
) -> Result<Root, Memory>
    ensures root { IfOk result (λ root. root ≡ spec.root_of table.old (read line.entry) (reverse roots.old.items)) }
    ensures roots { IfOk result (λ root. reverse roots.new.items ≡ root ∷ spec.beside line.entry.depth (reverse roots.old.items)) }
    ensures table { OnOk result (table.new ≡ with_text table.old (spec.key_of line.entry.words.now (spec.below line.entry.depth (reverse roots.old.items)))) }
{
    let mut below = SmallVec::new(alloc);
    let count = take_below(&mut below, line.depth, roots)?;
    let key = Key {
        words: stem(line.words),
        below,
    };
    let root = Root {
        depth: line.depth,
        count: count.checked_add(1).ok_or(Memory)?,
        class: table.place(key)?,
    };
    roots.push(root)?;
    Ok(root)
}

/// The subtree of each line, by a table that is hashed by the keys.
pub(crate) fn marks_of(
    alloc: Global,
    lines: &[Line<'_>],
    random: RandomState,
) -> Result<Vec<Root>, Memory>
    ensures { IfOk result (λ marks. spec.AreMarks (read_all lines.now) marks.items) }
{
    let mut left = lines.len();
    let mut table = Table::with_room(alloc, left, random)?;
    let mut roots = Vec::new(alloc);
    let mut marks = Vec::with_capacity(alloc, left)?;
    while left > 0 {
        left -= 1;
        marks.push(add_root(alloc, &mut table, lines[left], &mut roots)?)?;
    }
    marks.reverse();
    Ok(marks)
}
