//! The levelled model.
ghost use Rattle.std.specs.Prelude.{◌++◌, List, IfOk, OnOk};
ghost use Rattle.std.specs.List.{flat_map};
ghost use Rattle.scasp_map.specs.Entries.{level_in, plus_in};
ghost use Rattle.scasp_extend_levels.specs.Numbered.{StandAll};
ghost use Rattle.scasp_extend_levels.specs.Sets.{with_atoms};
ghost use Rattle.scasp_extend_levels.specs.Sorted.{IsSorted};
ghost use Rattle.scasp_closure.specs.Reading.{atoms_in};
ghost use Rattle.scasp_model.specs.Atoms.{SameAtoms};
ghost use Rattle.scasp_model.specs.Levelled.{levelled_model, read_lower, signed_model};
ghost use Rattle.scasp_model.specs.declared.program.GroundClause.{GroundClause as ThisClause};
ghost use Rattle.scasp_sound.specs.MapLevels.{level_of, plus_of};
ghost use Rattle.scasp_syntax.specs.declared.predicate_map.PredMap.{PredMap as ThisMap};
ghost use Rattle.scasp_worklist.specs.Numbered.{has};
ghost use Rattle.std.specs.Prelude.{◌≡◌};

use crate::buckets::Levels;
use crate::numbered::Level;
use crate::sets::add_all;
use crate::signs::{minus_by, plus_model};
use crate::standings::standings_of;
use scasp_closure::atoms_in;
use scasp_map::Entries;
use scasp_name::Memory;
use scasp_syntax::Atom;
use scasp_tables::AtomTable;
use scasp_worklist::NumberSet;
use std::alloc::Global;

/// Puts the atoms whose numbers are in the set into the model.
fn add_set(
    alloc: Global,
    set: &NumberSet,
    atoms: &[Atom],
    model: &mut AtomTable,
) -> Result<(), Memory>
    ensures { OnOk result (model.new ≡ with_atoms model.old (atoms_in (has set.now) atoms.now)) }
{
    let here = atoms_in(alloc, set, atoms)?;
    add_all(alloc, model, here.as_slice())?;
    Ok(())
}

/// Adds the model of the rules of a level to the atoms of lower levels.
fn add_level(
    alloc: Global,
    entries: &Entries,
    level: u64,
    here: &Level,
    model: &mut AtomTable,
) -> Result<(), Memory>
    ensures { OnOk result ((cs : List ThisClause) → StandAll here.now.table here.now.rules cs → SameAtoms model.new (model.old ++ signed_model (plus_in entries.now) (flat_map (read_lower (level_in entries.now) level model.old) cs))) }
{
    let atoms = here.table.as_slice();
    let rules = here.rules.as_slice();
    let standings = standings_of(alloc, entries, level, model, atoms)?;
    let known = standings.as_slice();
    let plus = plus_model(alloc, known, rules)?;
    let minus = minus_by(alloc, known, rules, &plus)?;
    add_set(alloc, &plus, atoms, model)?;
    add_set(alloc, &minus, atoms, model)?;
    Ok(())
}

impl Levels {
    /// The levelled model of the rules, by the levels and signs of the map. It goes once through the rules of each level that a head
    /// has, and there as often as the atoms with `+` change.
    pub fn model(self, alloc: Global) -> Result<AtomTable, Memory>
        ensures { IfOk result (λ made. (map : List ThisMap) (g : List ThisClause) → IsSorted map self g → SameAtoms made (levelled_model (level_of map) (plus_of map) g)) }
    {
        let Levels {
            entries,
            mut levels,
            random,
        } = self;
        let mut model = AtomTable::new(alloc, random);
        while let Some(lowest) = levels.pop_first() {
            let (level, here) = lowest;
            add_level(alloc, &entries, level, &here, &mut model)?;
        }
        Ok(model)
    }
}
