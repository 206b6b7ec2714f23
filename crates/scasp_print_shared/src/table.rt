//! Distinct keys in order, found by hashing.
ghost use Rattle.std.specs.Prelude.{◌≡◌, [], IfOk, OnOk};
ghost use Rattle.std.specs.Cmp.{on_equiv, on_per, partial_equiv_from_equiv};
ghost use Rattle.std.specs.Cmp.Lexicographic.{bytes_decides, nat_list_eq_equiv};
ghost use Rattle.std.proofs.Common.{ap};
ghost use Rattle.std.specs.Str.{bytes_eq};
ghost use Rattle.scasp_name.specs.Texts.{with_text};
ghost use Rattle.scasp_print_shared.specs.Inside.Classes.{place_in};
ghost use Rattle.scasp_print_shared.specs.Inside.Keys.{numbers_of, written_of};

use indexmap::IndexSet;
use scasp_name::Memory;
use smallvec::SmallVec;
use std::alloc::Global;
use std::hash::{Hash, Hasher, RandomState};
use std::marker::Model;

/// The words of a line without a line number at their end, and the classes of the subtrees right below it.
#[derive(Drop)]
pub(crate) struct Key<'a> {
    pub(crate) words: &'a [u8],
    pub(crate) below: SmallVec<usize, 2>,
}

impl<'a> PartialEq for Key<'a> {
    ghost eq = { λ x y. bytes_eq (numbers_of x) (numbers_of y) };

    ghost laws = { on_per numbers_of (partial_equiv_from_equiv nat_list_eq_equiv) };

    fn eq(&self, other: &Self) -> bool {
        self.words == other.words && self.below == other.below
    }
}

impl<'a> Eq for Key<'a> {
    ghost laws = { on_equiv numbers_of nat_list_eq_equiv };
}

impl<'a> Hash for Key<'a> {
    ghost hash_input = { λ k. written_of (numbers_of k) };

    ghost respects_eq = { λ x y h. ap written_of ((bytes_decides (numbers_of x) (numbers_of y)).0 h) };

    // The words are written at once, not byte by byte.
    fn hash<H: Hasher>(&self, state: &mut H) {
        state.write(self.words);
        self.below.hash(state);
    }
}

/// Distinct keys, each with its place.
#[derive(Drop)]
pub(crate) struct Table<'a> {
    keys: IndexSet<Key<'a>, RandomState>,
}

impl<'a> Model for Table<'a> {
    ghost use Rattle.std.specs.Prelude.{List, ℕ, map};
    ghost use Rattle.scasp_print_shared.specs.Inside.Keys.{numbers_of};

    ghost Value = { List (List ℕ) };

    ghost view = { λ t. map numbers_of t.keys.keys };
}

impl<'a> Table<'a> {
    /// No keys, with room for so many, which are hashed by these random keys.
    pub(crate) fn with_room(
        alloc: Global,
        count: usize,
        random: RandomState,
    ) -> Result<Table<'a>, Memory>
        ensures { IfOk result (λ table. table ≡ []) }
    {
        Ok(Table {
            keys: IndexSet::with_capacity_and_hasher(alloc, count, random)?,
        })
    }

    /// The place of the key, which goes last where it is new.
    pub(crate) fn place(&mut self, key: Key<'a>) -> Result<usize, Memory>
        ensures place { IfOk result (λ place. place ≡ place_in self.old (numbers_of key.entry)) }
        ensures keys { OnOk result (self.new ≡ with_text self.old (numbers_of key.entry)) }
    {
        let (place, _) = self.keys.insert_full(key)?;
        Ok(place)
    }
}
