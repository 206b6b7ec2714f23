//! Items of flat bodies.
ghost use Rattle.std.specs.Prelude.{◌≡◌, IfOk, map};
ghost use Rattle.scasp_search_rules.specs.Successors.Items.{body_of, item_raised, opposite_item};

use crate::calls::raising::Raised;
use scasp_disjoint::{Raising, con_raised};
use scasp_lines_places::atom_under;
use scasp_list::Memory;
use scasp_search_terms::forms::negated;
use scasp_syntax::{DeepCopy, FlatItem, FlatItems, Lit, Program, flat};
use std::alloc::Global;

/// The item with each variable raised.
fn item_raised(alloc: Global, by: u64, item: &FlatItem) -> Result<FlatItem, Memory>
    ensures { IfOk result (λ made. made ≡ item_raised by item.now) }
{
    match item {
        FlatItem::Call(lit) => Ok(FlatItem::Call(Lit {
            positive: lit.positive,
            atom: atom_under(alloc, &lit.atom, &Raised { by })?,
        })),
        FlatItem::Test(constraint) => {
            let raising = Raising { free: 0, by };
            Ok(FlatItem::Test(con_raised(alloc, &raising, constraint)?))
        }
    }
}

fn items_raised(alloc: Global, by: u64, items: &[FlatItem]) -> Result<FlatItems, Memory>
    ensures { IfOk result (λ made. made ≡ map (item_raised by) items.now) }
{
    let mut made = FlatItems::new(alloc);
    for item in items {
        made.push(item_raised(alloc, by, item)?)?;
    }
    Ok(made)
}

/// The flat body of the clause of this number, with its variables from `first` on.
pub fn body_of(
    alloc: Global,
    program: &Program,
    clause: u64,
    first: u64,
) -> Result<FlatItems, Memory>
    ensures { IfOk result (λ made. made ≡ body_of program.now clause first) }
{
    match program.clause(clause) {
        Some(found) => {
            let body = flat(alloc, found)?;
            items_raised(alloc, first, body.as_slice())
        }
        None => Ok(FlatItems::new(alloc)),
    }
}

/// The item that is true where this one is false.
pub fn opposite_item(alloc: Global, item: &FlatItem) -> Result<FlatItem, Memory>
    ensures { IfOk result (λ made. made ≡ opposite_item item.now) }
{
    match item {
        FlatItem::Call(lit) => Ok(FlatItem::Call(Lit {
            positive: !lit.positive,
            atom: lit.atom.copy(alloc)?,
        })),
        FlatItem::Test(constraint) => Ok(FlatItem::Test(negated(alloc, 0, constraint)?)),
    }
}
