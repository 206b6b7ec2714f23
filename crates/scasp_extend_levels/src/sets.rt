//! Sets of atoms.
ghost use Rattle.std.specs.Prelude.{◌≡◌, OnOk};
ghost use Rattle.scasp_extend_levels.specs.Sets.{with_atoms};

use scasp_name::Memory;
use scasp_syntax::Atom;
use scasp_tables::AtomTable;
use std::alloc::Global;

/// Puts the atoms into the set.
pub fn add_all(alloc: Global, set: &mut AtomTable, atoms: &[Atom]) -> Result<(), Memory>
    ensures { OnOk result (set.new ≡ with_atoms set.old atoms.now) }
{
    for atom in atoms {
        set.put(alloc, atom)?;
    }
    Ok(())
}
