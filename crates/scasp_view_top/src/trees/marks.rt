//! What stands before lines.
ghost use Rattle.std.specs.Prelude.{◌≡◌, ◌++◌, IfOk};
ghost use Rattle.scasp_view_top.specs.Trees.Rows as spec;

use crate::trees::view::View;
use scasp_list::Memory;
use std::alloc::Global;

const BLANKS: &[u8] = b"  ";

const FORK: &[u8] = b"\xe2\x94\x9c ";

const CORNER: &[u8] = b"\xe2\x94\x94 ";

const BAR: &[u8] = b"\xe2\x94\x82 ";

/// Where a line stands: the stem of the lines right below the line above it, and whether it is the last of these.
#[derive(Drop)]
pub(crate) struct Spot {
    pub stem: Vec<u8>,
    pub is_last: bool,
}

/// What stands right before a line.
fn own_mark(plain: bool, is_last: bool) -> &'static [u8]
    ensures { result.now ≡ spec.own_mark plain is_last }
{
    if plain {
        BLANKS
    } else if is_last {
        CORNER
    } else {
        FORK
    }
}

/// What stands above the lines below it.
fn below_mark(plain: bool, is_last: bool) -> &'static [u8]
    ensures { result.now ≡ spec.below_mark plain is_last }
{
    if plain || is_last { BLANKS } else { BAR }
}

/// One text behind the other.
fn joined(alloc: Global, stem: &[u8], mark: &[u8]) -> Result<Vec<u8>, Memory>
    ensures { IfOk result (λ text. text.items ≡ stem.now ++ mark.now) }
{
    let mut text = Vec::from_slice(alloc, stem)?;
    text.extend_from_slice(mark)?;
    Ok(text)
}

/// What stands before the line.
pub(crate) fn lead(alloc: Global, view: &View<'_>, spot: &Spot) -> Result<Vec<u8>, Memory>
    ensures { IfOk result (λ lead. lead.items ≡ spot.now.stem.items ++ spec.own_mark view.now.plain spot.now.is_last) }
{
    let mark = own_mark(view.is_plain(), spot.is_last);
    joined(alloc, spot.stem.as_slice(), mark)
}

/// The stem of the lines below it.
pub(crate) fn stem_below(alloc: Global, view: &View<'_>, spot: &Spot) -> Result<Vec<u8>, Memory>
    ensures { IfOk result (λ stem. stem.items ≡ spec.stem_below view.now spot.now.stem.items spot.now.is_last) }
{
    let mark = below_mark(view.is_plain(), spot.is_last);
    joined(alloc, spot.stem.as_slice(), mark)
}
