//! Each answer once.
ghost use Rattle.std.specs.Prelude.{◌≡◌, ◌+◌, ◌++◌, ◌∷◌, [], map, IfOk, OnOk};
ghost use Rattle.scasp_view_top.specs.Blocks.Blocks as spec;
ghost use Rattle.scasp_view_top.specs.Blocks.View.{judgement_of};

use crate::blocks::judged::Judged;
use crate::blocks::keys::{is_among, key_of};
use crate::blocks::put_block;
use crate::trees::{Text, View};
use scasp_list::Memory;
use scasp_print_words::{put, put_number};
use std::alloc::Global;

/// What has been shown so far, with what tells the answers in it from others, and how many were left out.
#[derive(Drop)]
pub(crate) struct Showing {
    text: Vec<u8>,
    seen: Vec<Text>,
    left_out: u64,
}

/// Leaves a block out.
fn leave_out(showing: &mut Showing) -> Result<(), Memory>
    ensures text { OnOk result (showing.new.text.items ≡ showing.old.text.items) }
    ensures seen { OnOk result (showing.new.seen.items ≡ showing.old.seen.items) }
    ensures left_out { OnOk result (showing.new.left_out ≡ showing.old.left_out + 1) }
{
    showing.left_out = showing.left_out.checked_add(1).ok_or(Memory)?;
    Ok(())
}

/// Shows a block that this tells from those that were shown.
fn show_fresh(
    showing: &mut Showing,
    view: &View<'_>,
    checks: bool,
    key: Text,
    block: &Judged<'_>,
) -> Result<(), Memory>
    ensures text { OnOk result (showing.new.text.items ≡ showing.old.text.items ++ spec.block_text view.now checks (judgement_of block.now)) }
    ensures seen { OnOk result (showing.new.seen.items ≡ showing.old.seen.items ++ key ∷ []) }
    ensures left_out { OnOk result (showing.new.left_out ≡ showing.old.left_out) }
{
    showing.seen.push(key)?;
    put_block(&mut showing.text, view, checks, block)
}

/// Shows a block, unless its answer was shown before.
fn show(
    showing: &mut Showing,
    view: &View<'_>,
    checks: bool,
    block: &Judged<'_>,
) -> Result<(), Memory>
    ensures text { OnOk result (showing.new.text.items ≡ showing.old.text.items ++ spec.fresh_text view.now checks showing.old.seen.items (judgement_of block.now)) }
    ensures seen { OnOk result (showing.new.seen.items ≡ spec.seen_behind view.now.names showing.old.seen.items (judgement_of block.now)) }
    ensures left_out { OnOk result (showing.new.left_out ≡ showing.old.left_out + spec.repeats view.now.names showing.old.seen.items (judgement_of block.now)) }
{
    let key = key_of(*showing.text.allocator(), view.names(), block)?;
    if is_among(showing.seen.as_slice(), &key) {
        leave_out(showing)
    } else {
        show_fresh(showing, view, checks, key, block)
    }
}

/// Shows each answer once.
fn show_all(
    alloc: Global,
    view: &View<'_>,
    checks: bool,
    blocks: &[Judged<'_>],
) -> Result<Showing, Memory>
    ensures text { IfOk result (λ showing. showing.text.items ≡ spec.shown_text view.now checks [] (map judgement_of blocks.now)) }
    ensures left_out { IfOk result (λ showing. showing.left_out ≡ spec.repeated view.now.names [] (map judgement_of blocks.now)) }
{
    let mut showing = Showing {
        text: Vec::new(alloc),
        seen: Vec::new(alloc),
        left_out: 0,
    };
    for block in blocks {
        show(&mut showing, view, checks, block)?;
    }
    Ok(showing)
}

/// Each answer once, and then how many were left out.
#[tactic(auto, unfolding(crate::specs::Blocks::Blocks::left_out_line))]
pub(crate) fn print_once(
    alloc: Global,
    view: &View<'_>,
    checks: bool,
    blocks: &[Judged<'_>],
) -> Result<Vec<u8>, Memory>
    ensures { IfOk result (λ text. text.items ≡ spec.once_text view.now checks (map judgement_of blocks.now)) }
{
    let Showing {
        mut text,
        left_out,
        ..
    } = show_all(alloc, view, checks, blocks)?;
    put(&mut text, "left out ")?;
    put_number(&mut text, left_out)?;
    put(&mut text, "\n")?;
    Ok(text)
}
