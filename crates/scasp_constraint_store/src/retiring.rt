//! Lists without some of their constraints.
ghost use Rattle.std.specs.Prelude.{◌≡◌, IfOk};
ghost use Rattle.scasp_constraint_store.specs.Held.{kept_from};

use scasp_list::Memory;
use scasp_syntax::{Con, DeepCopy};
use std::alloc::Global;

/// The constraints that do not stand at one of these places, in order.
pub(crate) fn kept(alloc: Global, list: &[Con], places: &[u64]) -> Result<Vec<Con>, Memory>
    ensures { IfOk result (λ made. made.items ≡ kept_from 0 places.now list.now) }
{
    let mut made = Vec::new(alloc);
    for (place, constraint) in list.iter().enumerate() {
        if !places.contains(&(place as u64)) {
            made.push(constraint.copy(alloc)?)?;
        }
    }
    Ok(made)
}
