//! Sets of numbers.
ghost use Rattle.std.specs.Prelude.{◌≡◌, [], nat_eq, OnOk};
ghost use Rattle.indexmap.specs.IndexSet.{insert_key};

use indexmap::IndexSet;
use scasp_list::Memory;
use std::alloc::Global;
use std::marker::Model;

/// Distinct numbers, in the order in which they came.
#[derive(Drop)]
pub(crate) struct Numbers {
    numbers: IndexSet<u64>,
}

impl Model for Numbers {
    ghost use Rattle.std.specs.Prelude.{ℕ, List};

    ghost Value = { List ℕ };

    ghost view = { λ n. n.numbers.keys };
}

impl Numbers {
    /// No number. It takes no memory.
    pub fn new(alloc: Global) -> Numbers
        ensures { result ≡ [] }
    {
        Numbers {
            numbers: IndexSet::new(alloc),
        }
    }

    /// Puts the number at the end unless it is there.
    pub fn insert(&mut self, number: u64) -> Result<(), Memory>
        ensures { OnOk result (self.new ≡ insert_key nat_eq self.old number) }
    {
        self.numbers.insert(number)?;
        Ok(())
    }

    /// The numbers.
    pub fn as_slice(&self) -> &[u64]
        ensures { result.now ≡ self.now }
    {
        self.numbers.as_slice()
    }
}
