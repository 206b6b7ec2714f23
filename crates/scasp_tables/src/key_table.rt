//! Distinct lists of numbers in order, found by hashing.
ghost use Rattle.std.specs.Prelude.{◌≡◌, ℕ, false, List, [], ◌∷◌, ◌++◌, slice_get, Some, IfSome, IfNone, OnOk, OnErr};
ghost use Rattle.scasp_name.specs.Texts.{has_text};

use indexmap::IndexSet;
use scasp_list::Memory;
use std::alloc::Global;
use std::hash::RandomState;
use std::marker::Model;

/// Distinct lists of numbers, each with its place.
#[derive(Drop)]
pub(crate) struct KeyTable {
    keys: IndexSet<Vec<u64>, RandomState>,
}

impl Model for KeyTable {
    ghost use Rattle.std.specs.Prelude.{List, ℕ, map};

    ghost Value = { List (List ℕ) };

    ghost view = { λ t. map (λ k. k.items) t.keys.keys };
}

impl KeyTable {
    /// No keys; those to come are hashed by these random keys. It takes no memory.
    pub(crate) fn new(alloc: Global, random: RandomState) -> KeyTable
        ensures { result ≡ [] }
    {
        KeyTable {
            keys: IndexSet::with_hasher(alloc, random),
        }
    }

    /// The place of the key.
    pub(crate) fn find(&self, key: &[u64]) -> Option<usize>
        ensures found { IfSome result (λ place. slice_get self.now place ≡ Some key.now) }
        ensures absent { IfNone result (has_text self.now key.now ≡ false) }
    {
        match self.keys.get_index_of(key) {
            Some(place) => Some(place),
            None => None,
        }
    }

    /// Whether the key is there.
    pub(crate) fn contains(&self, key: &[u64]) -> bool
        ensures { result ≡ has_text self.now key.now }
    {
        self.keys.get_index_of(key).is_some()
    }

    /// Puts a key that is not there at the end.
    pub(crate) fn push(&mut self, key: Vec<u64>) -> Result<(), Memory>
        requires { has_text self.old key.items ≡ false }
        ensures ok { OnOk result (self.new ≡ self.old ++ key.items ∷ []) }
        ensures err { OnErr result (self.new ≡ self.old) }
    {
        self.keys.insert(key)?;
        Ok(())
    }

    /// Takes the last key out, if there is one.
    pub(crate) fn pop(&mut self)
        ensures { (keys : List (List ℕ)) (key : List ℕ) → self.old ≡ keys ++ key ∷ [] → self.new ≡ keys }
    {
        let _ = self.keys.pop();
    }
}
