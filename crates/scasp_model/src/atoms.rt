//! Lists of atoms as sets.
ghost use Rattle.std.specs.Prelude.{◌≡◌, IfOk};
ghost use Rattle.scasp_model.specs.Atoms.{among, has_all};

use crate::program::AtomList;
use scasp_name::Memory;
use scasp_syntax::{Atom, same_atom};
use std::alloc::Global;

/// Whether the atom is in the list.
pub fn among(alloc: Global, atoms: &AtomList, atom: &Atom) -> Result<bool, Memory>
    ensures { IfOk result (λ answer. answer ≡ among atoms.now atom.now) }
{
    for other in atoms.as_slice() {
        if same_atom(alloc, atom, other)? {
            return Ok(true);
        }
    }
    Ok(false)
}

/// Whether each of these atoms is in the list.
pub fn has_all(alloc: Global, atoms: &AtomList, wanted: &AtomList) -> Result<bool, Memory>
    ensures { IfOk result (λ answer. answer ≡ has_all atoms.now wanted.now) }
{
    for atom in wanted.as_slice() {
        if !among(alloc, atoms, atom)? {
            return Ok(false);
        }
    }
    Ok(true)
}
