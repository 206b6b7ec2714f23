//! Sets of names.
ghost use Rattle.std.specs.Prelude.{◌≡◌, [], ◌∷◌, length, OnOk};
ghost use Rattle.scasp_abduce.specs.Inside.{HasBoth};
ghost use Rattle.scasp_abduce.specs.Occurrences.{has};

use indexmap::IndexSet;
use scasp_list::Memory;
use scasp_name::NameId;
use std::alloc::Global;
use std::marker::Model;

/// Names that no new predicate may have, found by hashing.
#[derive(Drop)]
pub(crate) struct TakenNames {
    places: IndexSet<u64>,
}

impl Model for TakenNames {
    ghost use Rattle.std.specs.Prelude.{ℕ, List};

    ghost Value = { List ℕ };

    ghost view = { λ t. t.places.keys };
}

impl TakenNames {
    /// No names. It takes no memory.
    pub fn new(alloc: Global) -> TakenNames
        ensures { result ≡ [] }
    {
        TakenNames {
            places: IndexSet::new(alloc),
        }
    }

    /// Whether the name is taken.
    pub fn contains(&self, name: NameId) -> bool
        ensures { result ≡ has self.now name }
    {
        self.places.contains(&name.place())
    }

    /// Takes the name.
    pub fn insert(&mut self, name: NameId) -> Result<(), Memory>
        ensures { OnOk result (HasBoth self.new self.old (name ∷ [])) }
    {
        self.places.insert(name.place())?;
        Ok(())
    }
}
