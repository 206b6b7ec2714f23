//! Blocks for the eye: each below its verdict and its query, all of them or each answer once.
ghost use Rattle.std.specs.Prelude.{◌≡◌, ◌++◌, flat_map, map, IfOk, OnOk};
ghost use Rattle.scasp_view_top.specs.Blocks.Blocks as spec;
ghost use Rattle.scasp_view_top.specs.Blocks.View.{judgement_of};

mod judged;
mod keys;
mod once;

use crate::blocks::keys::put_given;
use crate::blocks::once::print_once;
use crate::trees::{View, put_trees};
pub use judged::Judged;
use scasp_list::Memory;
use scasp_print_words::put;
use std::alloc::Global;

/// What stands above the trees.
fn head_text(alloc: Global, view: &View<'_>, block: &Judged<'_>) -> Result<Vec<u8>, Memory>
    ensures { IfOk result (λ text. text.items ≡ spec.head_text view.now (judgement_of block.now)) }
{
    let mut text = Vec::from_slice(alloc, block.verdict.as_slice())?;
    text.extend_from_slice(block.query.as_slice())?;
    put_given(&mut text, view.names(), &block.cert.given)?;
    Ok(text)
}

/// Puts a block at the end: its verdict, its query, what is given, its trees and its checks; and an empty line.
#[tactic(auto, unfolding(crate::specs::Blocks::Blocks::block_text))]
pub(crate) fn put_block(
    out: &mut Vec<u8>,
    view: &View<'_>,
    checks: bool,
    block: &Judged<'_>,
) -> Result<(), Memory>
    ensures { OnOk result (out.new.items ≡ out.old.items ++ spec.block_text view.now checks (judgement_of block.now)) }
{
    let head = head_text(*out.allocator(), view, block)?;
    let text = put_trees(head, view, checks, block.cert)?;
    out.extend_from_slice(text.as_slice())?;
    put(out, "\n")
}

/// The blocks one below the other.
fn print_all(
    alloc: Global,
    view: &View<'_>,
    checks: bool,
    blocks: &[Judged<'_>],
) -> Result<Vec<u8>, Memory>
    ensures { IfOk result (λ text. text.items ≡ flat_map (spec.block_text view.now checks) (map judgement_of blocks.now)) }
{
    let mut text = Vec::new(alloc);
    for block in blocks {
        put_block(&mut text, view, checks, block)?;
    }
    Ok(text)
}

/// The text of the blocks, with their checks whole or as a number; all, or each answer once and then how many were left out.
///
/// # Errors
///
/// Want of memory.
pub fn print_blocks(
    alloc: Global,
    view: &View<'_>,
    checks: bool,
    once: bool,
    blocks: &[Judged<'_>],
) -> Result<Vec<u8>, Memory>
    ensures { IfOk result (λ text. text.items ≡ spec.blocks_text view.now checks once (map judgement_of blocks.now)) }
{
    if once {
        print_once(alloc, view, checks, blocks)
    } else {
        print_all(alloc, view, checks, blocks)
    }
}

/// Whether each of the blocks is accepted.
pub fn are_accepted(blocks: &[Judged<'_>]) -> bool
    ensures { result ≡ spec.are_accepted (map judgement_of blocks.now) }
{
    for block in blocks {
        if !block.accepted {
            return false;
        }
    }
    true
}
