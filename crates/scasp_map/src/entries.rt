//! The map of a certificate, found by predicate.
ghost use Rattle.std.specs.Prelude.{◌≡◌, ◌∷◌, IfOk, OnOk, if◌then◌else◌};
ghost use Rattle.scasp_graph.specs.Map.{entry_of};
ghost use Rattle.scasp_map.specs.Entries.{entry_at, level_in, plus_in};
ghost use Rattle.scasp_syntax.specs.Same.{same_pred};
ghost use Rattle.scasp_syntax.specs.declared.atom.Pred.{Pred as ThisPred};

use scasp_name::Memory;
use scasp_syntax::{Atom, Pred, PredMap, PredMaps};
use std::alloc::Global;
use std::collections::HashMap;

/// Levels and signs by predicate.
pub type Entries = HashMap<Pred, PredMap>;

/// The entry of the predicate; one that is not there has level 0 and `+`.
pub(crate) fn entry_at(entries: &Entries, pred: Pred) -> PredMap
    ensures { result ≡ entry_at entries.now pred }
{
    match entries.get(&pred) {
        Some(entry) => *entry,
        None => PredMap {
            pred,
            level: 0,
            plus: true,
        },
    }
}

/// The level of the atom's predicate.
pub fn level_in(entries: &Entries, atom: &Atom) -> u64
    ensures { result ≡ level_in entries.now atom.now }
{
    entry_at(entries, atom.pred()).level
}

/// Whether the atom's predicate has the sign `+`.
pub fn plus_in(entries: &Entries, atom: &Atom) -> bool
    ensures { result ≡ plus_in entries.now atom.now }
{
    entry_at(entries, atom.pred()).plus
}

/// Puts the entry in the place of one for its predicate.
fn put_entry(entries: &mut Entries, entry: PredMap) -> Result<(), Memory>
    ensures { OnOk result ((p : ThisPred) → entry_at entries.new p ≡ (if same_pred p entry.pred then entry else entry_at entries.old p)) }
{
    entries.insert(entry.pred, entry)?;
    Ok(())
}

/// The levels and signs of a map by predicate, of which the first entry counts.
pub fn entries_of(alloc: Global, map: &PredMaps) -> Result<Entries, Memory>
    ensures { IfOk result (λ made. (p : ThisPred) → entry_at made p ≡ entry_of map.now p) }
{
    let mut entries: Entries = HashMap::new(alloc);
    let listed = map.as_slice();
    let mut left = listed.len();
    while left > 0 {
        put_entry(&mut entries, listed[left - 1])?;
        left -= 1;
    }
    Ok(entries)
}
