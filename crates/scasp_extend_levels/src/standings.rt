//! What atoms are at a level.
ghost use Rattle.std.specs.Prelude.{◌≡◌, map, IfOk};
ghost use Rattle.scasp_map.specs.Entries.{level_in, plus_in};
ghost use Rattle.scasp_extend_levels.specs.Numbered.{standing_at, standing_of};

use scasp_list::Sequence;
use scasp_map::{Entries, level_in, plus_in};
use scasp_name::Memory;
use scasp_syntax::Atom;
use scasp_tables::AtomTable;
use std::alloc::Global;

/// What an atom is at a level: whether it is true, where it is of a lower level, and whether it has the sign `+`.
#[derive(Clone, Copy, Debug)]
pub(crate) struct Standing {
    pub(crate) known: Option<bool>,
    pub(crate) plus: bool,
}

/// What the atom is at the level, where exactly the atoms of the set are true below.
fn standing_of(
    alloc: Global,
    entries: &Entries,
    level: u64,
    below: &AtomTable,
    atom: &Atom,
) -> Result<Standing, Memory>
    ensures { IfOk result (λ made. made ≡ standing_of (level_in entries.now) (plus_in entries.now) level below.now atom.now) }
{
    let plus = plus_in(entries, atom);
    if level_in(entries, atom) < level {
        let is_there = below.contains(alloc, atom)?;
        return Ok(Standing {
            known: Some(is_there),
            plus,
        });
    }
    Ok(Standing { known: None, plus })
}

/// What each of the atoms is.
pub(crate) fn standings_of(
    alloc: Global,
    entries: &Entries,
    level: u64,
    below: &AtomTable,
    atoms: &[Atom],
) -> Result<Sequence<Standing>, Memory>
    ensures { IfOk result (λ made. made ≡ map (standing_of (level_in entries.now) (plus_in entries.now) level below.now) atoms.now) }
{
    let mut made = Sequence::new(alloc);
    for atom in atoms {
        made.push(standing_of(alloc, entries, level, below, atom)?)?;
    }
    Ok(made)
}

/// What the atom of this number is.
pub(crate) fn standing_at(standings: &[Standing], number: u64) -> Standing
    ensures { result ≡ standing_at standings.now number }
{
    match standings.get(number as usize) {
        Some(standing) => *standing,
        None => Standing {
            known: None,
            plus: false,
        },
    }
}
