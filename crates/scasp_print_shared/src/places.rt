//! The lines of each class.
ghost use Rattle.std.specs.Prelude.{◌≡◌, ◌==◌, ℕ, ◌∷◌, [], ◌++◌, ◌<◌, length, if◌then◌else◌, OnOk};
ghost use Rattle.scasp_print_shared.specs.Inside.Places.{listed};

use scasp_name::Memory;
use smallvec::SmallVec;
use std::alloc::Global;

/// Makes room for the list of a class.
fn make_room(alloc: Global, lists: &mut Vec<SmallVec<usize, 1>>, class: usize) -> Result<(), Memory>
    ensures room { OnOk result (class < length lists.new.items) }
    ensures same { OnOk result ((other : ℕ) → listed lists.new.items other ≡ listed lists.old.items other) }
{
    while lists.len() <= class {
        lists.push(SmallVec::new(alloc))?;
    }
    Ok(())
}

/// Puts a line at the end of the list of its class.
pub(crate) fn add_place(
    alloc: Global,
    lists: &mut Vec<SmallVec<usize, 1>>,
    class: usize,
    line: usize,
) -> Result<(), Memory>
    ensures { OnOk result ((other : ℕ) → listed lists.new.items other ≡ listed lists.old.items other ++ (if class == other then line ∷ [] else [])) }
{
    make_room(alloc, lists, class)?;
    lists[class].push(line)?;
    Ok(())
}
