//! Lists with one more item in front, or one fewer.
ghost use Rattle.std.specs.Prelude.{◌≡◌, ◌∷◌, ◌++◌, [], IfOk, MatchOption};

use scasp_list::{Memory, Sequence};
use std::alloc::Global;

/// The list with the item first.
pub fn with_first<T: Drop>(alloc: Global, item: T, list: Sequence<T>) -> Result<Sequence<T>, Memory>
    ensures { IfOk result (λ made. made ≡ item ∷ list) }
{
    let mut made = Sequence::new(alloc);
    made.push(item)?;
    for later in list.into_vec() {
        made.push(later)?;
    }
    Ok(made)
}

/// The first item, and those behind it.
#[tactic(auto, using(crate::proofs::CasesLemmas::ListLemmas::first_removed))]
pub fn split_first<T: Drop>(list: Sequence<T>) -> Option<(T, Sequence<T>)>
    ensures { MatchOption result (list ≡ []) (λ p. list ≡ p.0 ∷ p.1) }
{
    let mut items = list.into_vec();
    if items.is_empty() {
        return None;
    }
    let first = items.remove(0);
    Some((first, Sequence::from(items)))
}
