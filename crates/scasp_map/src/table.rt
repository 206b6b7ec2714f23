//! A map with a table of its entries.
ghost use Rattle.std.specs.Prelude.{◌≡◌, IfOk};
ghost use Rattle.scasp_graph.specs.Map.{entry_of};
ghost use Rattle.scasp_map.specs.Entries.{entry_at};
ghost use Rattle.scasp_syntax.specs.declared.atom.Pred.{Pred as ThisPred};

use crate::entries::{Entries, entries_of, entry_at};
use scasp_name::Memory;
use scasp_syntax::{Pred, PredMap, PredMaps};
use std::alloc::Global;
use std::marker::Model;

/// A map with its entries by predicate. Contracts see it as the map.
#[derive(Drop)]
pub struct MapTable<'a> {
    map: &'a PredMaps,
    entries: Entries,
    ghost finds: { (p : ThisPred) → entry_at entries p ≡ entry_of map.now p },
}

impl<'a> Model for MapTable<'a> {
    ghost use Rattle.std.specs.Prelude.{List};
    ghost use Rattle.scasp_syntax.specs.declared.predicate_map.PredMap.{PredMap};

    ghost Value = { List PredMap };

    ghost view = { λ t. t.map.now };
}

impl<'a> MapTable<'a> {
    /// The map with the table. It takes time linear in the entries.
    pub fn of(alloc: Global, map: &'a PredMaps) -> Result<MapTable<'a>, Memory>
        ensures { IfOk result (λ made. made ≡ map.now) }
    {
        let entries = entries_of(alloc, map)?;
        Ok(MapTable { map, entries })
    }

    /// The first entry of the predicate, or level 0 and `+`.
    pub fn entry(&self, pred: Pred) -> PredMap
        ensures { result ≡ entry_of self.now pred }
    {
        entry_at(&self.entries, pred)
    }
}
