//! Items of flat bodies with their variables raised.
ghost use Rattle.std.specs.Prelude.{◌≡◌, IfOk};
ghost use Rattle.scasp_search_rules.specs.Successors.Items.{item_raised};

use scasp_disjoint::{Raising, con_raised};
use scasp_lines_places::atom_under;
use scasp_list::Memory;
use scasp_syntax::{FlatItem, Lit};
use std::alloc::Global;

/// The item with each variable raised.
pub(crate) fn item_raised(alloc: Global, by: u64, item: &FlatItem) -> Result<FlatItem, Memory>
    ensures { IfOk result (λ made. made ≡ item_raised by item.now) }
{
    let raising = Raising { free: 0, by };
    match item {
        FlatItem::Call(lit) => Ok(FlatItem::Call(Lit {
            positive: lit.positive,
            atom: atom_under(alloc, &lit.atom, &raising)?,
        })),
        FlatItem::Test(constraint) => Ok(FlatItem::Test(con_raised(alloc, &raising, constraint)?)),
    }
}
