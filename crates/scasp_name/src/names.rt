//! The table itself.
ghost use Rattle.std.specs.Prelude.{◌≡◌, ℕ, ◌<◌, ◌^◌, ◌↔◌, false, length, IfOk, OnOk, OnErr, IfSome, IfNone, slice_get};
ghost use Rattle.scasp_name.specs.Texts.{has_text, with_text, list_names, AreDistinct, BeginWithLists};

use crate::{Memory, NameId};
use indexmap::IndexSet;
use std::alloc::Global;
use std::hash::RandomState;
use std::marker::Model;

/// A list of distinct texts, in order of first use.
pub struct Names {
    texts: IndexSet<String, RandomState>,
    keys: RandomState,
}

impl Drop for Names {
    /// Frees the texts. The crates above call this, and need not prove how each part is freed.
    fn drop(self) {
        let Names { texts, keys: _ } = self;
        drop(texts);
    }
}

impl Model for Names {
    ghost use Rattle.std.specs.Prelude.{ℕ, List, map, string_bytes};
    ghost use Rattle.scasp_name.specs.Texts.{BeginWithLists};

    ghost Value = { List (List ℕ) };

    ghost view = { λ n. map string_bytes n.texts.keys };

    ghost invariant = { λ n. BeginWithLists (map string_bytes n.texts.keys) };
}

impl Names {
    /// The table of the two names of lists. The texts are hashed by the keys: whoever writes a program does not know keys
    /// that were drawn at random, so no choice of names makes the table slow.
    pub fn new(alloc: Global, keys: RandomState) -> Result<Names, Memory>
        ensures { IfOk result (λ names. names ≡ list_names) }
    {
        let mut texts = IndexSet::with_hasher(alloc, keys);
        texts.insert(String::from_str(alloc, "[]")?)?;
        texts.insert(String::from_str(alloc, "[|]")?)?;
        Ok(Names { texts, keys })
    }

    /// The keys by which the texts are hashed, for other tables over what the same files hold.
    pub fn keys(&self) -> RandomState {
        self.keys
    }

    /// The name of the text, which goes last where it is new. Old names keep their texts.
    pub fn intern(&mut self, text: &str) -> Result<NameId, Memory>
        ensures texts { OnOk result (self.new ≡ with_text self.old text.now) }
        ensures place { IfOk result (λ id. slice_get self.new id ≡ Some text.now) }
        ensures kept { (place : ℕ) → place < length self.old → slice_get self.new place ≡ slice_get self.old place }
        ensures err { OnErr result (self.new ≡ self.old) }
    {
        if let Some(id) = self.find(text) {
            return Ok(id);
        }
        let alloc = *self.texts.allocator();
        let (place, _) = self.texts.insert_full(String::from_str(alloc, text)?)?;
        Ok(NameId::new(place as u64))
    }

    /// The name of the text, where the table has it.
    pub fn find(&self, text: &str) -> Option<NameId>
        ensures found { IfSome result (λ id. slice_get self.now id ≡ Some text.now) }
        ensures absent { IfNone result (has_text self.now text.now ≡ false) }
    {
        match self.texts.get_index_of(text) {
            Some(place) => Some(NameId::new(place as u64)),
            None => None,
        }
    }

    /// The number of texts.
    pub fn len(&self) -> u64
        ensures count { result ≡ length self.now }
        ensures below { result < 2 ^ 63 }
        ensures lists { BeginWithLists self.now }
        ensures distinct { AreDistinct self.now }
    {
        self.texts.len() as u64
    }

    /// The text of a name of this table.
    pub fn text(&self, id: NameId) -> &str
        requires { id < length self.now }
        ensures { slice_get self.now id ≡ Some result.now }
    {
        match self.texts.get_index(id.place() as usize) {
            Some(text) => text.as_str(),
            None => unreachable!(),
        }
    }
}
