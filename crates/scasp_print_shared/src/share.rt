//! The text of a block, with its copies.
ghost use Rattle.std.specs.Prelude.{◌≡◌, ◌++◌, flat_map, OnOk, IfOk};
ghost use Rattle.scasp_copies.specs.Pieces.{piece_text};
ghost use Rattle.scasp_print_shared.specs.Inside.Lines.{read_all};
ghost use Rattle.scasp_print_shared.specs.Shared as spec;

use crate::lines::{Line, behind_tree, count_numbered};
use crate::put::put_lines;
use crate::split::split_lines;
use crate::walk::put_shared;
use scasp_name::Memory;
use std::alloc::Global;
use std::hash::RandomState;

/// Puts the lines of a block at the end, with its copies.
fn put_block(out: &mut Vec<u8>, lines: &[Line<'_>], random: RandomState) -> Result<(), Memory>
    ensures { OnOk result (out.new.items ≡ out.old.items ++ flat_map piece_text (spec.shared_block (read_all lines.now))) }
{
    let (front, behind) = lines.split_at(behind_tree(lines));
    let (numbered, others) = behind.split_at(count_numbered(behind));
    put_lines(out, front)?;
    put_shared(out, numbered, random)?;
    put_lines(out, others)
}

/// The text of a block with its copies, which are found by a table that is hashed by the keys.
#[tactic(auto, unfolding(crate::specs::Shared::shared_text))]
pub(crate) fn share(alloc: Global, block: &[u8], random: RandomState) -> Result<Vec<u8>, Memory>
    ensures { IfOk result (λ text. text.items ≡ spec.shared_text block.now) }
{
    let split = split_lines(alloc, block)?;
    let mut out = Vec::new(alloc);
    put_block(&mut out, &split.lines, random)?;
    out.extend_from_slice(split.rest)?;
    Ok(out)
}
