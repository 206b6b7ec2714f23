//! The literal above that a loop names.
ghost use Rattle.std.specs.Prelude.{◌≡◌, map, IfOk};
ghost use Rattle.std.specs.Option.{option_copied, option_map};
ghost use Rattle.scasp_lines_places.specs.Places.Chains.{chained};
ghost use Rattle.scasp_lines_places.specs.Places.View.{above_of, place_of};
ghost use Rattle.scasp_checker_rules.specs.Ancestors.{entry_at, is_entry_of, is_negated_before};

use scasp_lines_places::{Ancestor, Chain, Place, Replaced, atom_under};
use scasp_list::Memory;
use scasp_syntax::{Lit, same_atom};
use std::alloc::Global;

/// The nearest literal above on this line.
pub fn entry_at(at: u64, above: &Chain<Ancestor>) -> Option<&Ancestor>
    ensures { option_map above_of (option_copied result) ≡ entry_at at (map above_of (chained above.now)) }
{
    let mut rest = above;
    while let Some((entry, outer)) = rest.first() {
        if entry.at == at {
            return Some(entry);
        }
        rest = outer;
    }
    None
}

/// Whether a negated literal stands nearer than this line.
pub fn is_negated_before(at: u64, above: &Chain<Ancestor>) -> bool
    ensures { result ≡ is_negated_before at (map above_of (chained above.now)) }
{
    let mut rest = above;
    while let Some((entry, outer)) = rest.first() {
        if entry.at == at {
            return false;
        }
        if !entry.positive {
            return true;
        }
        rest = outer;
    }
    false
}

/// Whether the literal above is this one, as its atom is replaced here.
pub fn is_entry_of(alloc: Global, here: &Place, lit: &Lit, entry: &Ancestor) -> Result<bool, Memory>
    ensures { IfOk result (λ is. is ≡ is_entry_of (place_of here.now) lit.now (above_of entry.now)) }
{
    if entry.positive != lit.positive {
        return Ok(false);
    }
    let replaced = Replaced {
        all: &here.replaced,
    };
    let atom = atom_under(alloc, &entry.atom, &replaced)?;
    same_atom(alloc, &atom, &lit.atom)
}
