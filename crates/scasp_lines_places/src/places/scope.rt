//! Variables that may stand on a line.
ghost use Rattle.std.specs.Prelude.{◌≡◌, IfOk};
ghost use Rattle.scasp_lines.specs.Opened.{is_part, knows, sets};
ghost use Rattle.scasp_lines.specs.Places.{in_scope, is_universal};
ghost use Rattle.scasp_lines_places.specs.Places.View.{all_opened, opened_of, place_of};

use crate::places::chain::Chain;
use crate::places::place::{Entry, Place};
use crate::places::substitution::replaced_value;
use scasp_list::Memory;
use scasp_syntax::Term;
use std::alloc::Global;

/// Whether the variable is one of `size` ones from `first` on.
fn is_part(first: u64, size: u64, x: u64) -> bool
    ensures { result ≡ is_part first size x }
{
    first <= x && x - first < size
}

/// Whether the entry gives the variable a value.
fn sets(entry: &Entry, x: u64) -> bool
    ensures { result ≡ sets (opened_of entry.now) x }
{
    match entry {
        Entry::Ranges(y) => x == *y,
        Entry::Shaped { first, size, .. } => is_part(*first, *size, x),
        Entry::Assumed(_) => false,
    }
}

/// Whether the variable is one of the `free` ones, or something that opened gives it a value. It takes time linear in what
/// opened.
pub fn knows(free: u64, opened: &Chain<Entry>, x: u64) -> bool
    ensures { result ≡ knows free (all_opened opened.now) x }
{
    let mut rest = opened;
    while let Some((entry, outer)) = rest.first() {
        if sets(entry, x) {
            return true;
        }
        rest = outer;
    }
    x < free
}

/// Whether the variable may stand on the line: it is known, and no part that appears on no line.
pub fn in_scope(free: u64, top: u64, here: &Place, x: u64) -> bool
    ensures { result ≡ in_scope free top (place_of here.now) x }
{
    x < top && knows(free, &here.opened, x)
}

/// Whether the variable is a universal one that may stand on the line and is not replaced.
pub fn is_universal(
    alloc: Global,
    free: u64,
    top: u64,
    here: &Place,
    x: u64,
) -> Result<bool, Memory>
    ensures { IfOk result (λ answer. answer ≡ is_universal free top (place_of here.now) x) }
{
    if x < free || !in_scope(free, top, here, x) {
        return Ok(false);
    }
    match replaced_value(alloc, &here.replaced, x)? {
        Term::Var(y) => Ok(y == x),
        Term::Num(_) | Term::App(_, _) => Ok(false),
    }
}
