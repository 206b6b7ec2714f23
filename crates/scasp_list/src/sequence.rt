//! Lists of one type of item.
ghost use Rattle.std.specs.Prelude.{◌≡◌, [], ◌∷◌, ◌++◌, length, slice_get, ◌↔◌, IsTrue, OnOk, OnErr, option_copied};

use crate::Memory;
use std::alloc::Global;
use std::marker::Model;

/// A list of items, which contracts see as a list. It keeps the allocator that it was made with.
#[derive(Clone, Debug, Drop)]
pub struct Sequence<T> {
    list: Vec<T>,
}

impl<T> Model for Sequence<T> {
    ghost use Rattle.std.specs.Prelude.{List};
    ghost use Rattle.std.specs.Coded.{coded_list};

    ghost Value = { List T };

    ghost coded = { coded_list T.code };

    ghost view = { λ s. s.list.items };
}

impl<T> Sequence<T> {
    /// The empty list, which takes no memory.
    pub fn new(alloc: Global) -> Sequence<T>
        ensures { result ≡ [] }
    {
        Sequence {
            list: Vec::new(alloc),
        }
    }

    /// The number of items.
    pub fn len(&self) -> usize
        ensures { result ≡ length self.now }
    {
        self.list.len()
    }

    /// Whether there is no item.
    pub fn is_empty(&self) -> bool
        ensures { IsTrue result ↔ (self.now ≡ []) }
    {
        self.list.is_empty()
    }

    /// The item at the place, counted from 0.
    pub fn get(&self, place: usize) -> Option<&T>
        ensures { option_copied result ≡ slice_get self.now place }
    {
        self.list.get(place)
    }

    /// All items.
    pub fn as_slice(&self) -> &[T]
        ensures { result.now ≡ self.now }
    {
        self.list.as_slice()
    }

    /// Puts an item at the end; after an error the list is unchanged.
    pub fn push(&mut self, item: T) -> Result<(), Memory>
    where
        T: Drop,
        ensures ok { OnOk result (self.new ≡ self.old ++ item ∷ []) }
        ensures err { OnErr result (self.new ≡ self.old) }
    {
        self.list.push(item)?;
        Ok(())
    }

    /// The items as a `Vec`, which takes no memory.
    pub fn into_vec(self) -> Vec<T>
        ensures { result.items ≡ self }
    {
        let Sequence { list } = self;
        list
    }

    /// The allocator that the list was made with.
    pub fn allocator(&self) -> Global {
        *self.list.allocator()
    }
}

impl<T> From<Vec<T>> for Sequence<T> {
    ghost from_gives = { λ list sequence. sequence ≡ list.items };

    /// The list of the items of a `Vec`, which takes no memory.
    fn from(list: Vec<T>) -> Sequence<T> {
        Sequence { list }
    }
}
