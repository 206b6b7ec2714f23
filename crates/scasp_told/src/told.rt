//! One list, cut into pieces.
ghost use Rattle.std.specs.Prelude.{◌≡◌, ◌+◌, ◌-◌, ◌<◌, [], ◌∷◌, ◌++◌, length, slice_get, Some, OnOk, OnErr};
ghost use Rattle.scasp_trail.specs.Past.{earlier, is_marked, latest};
ghost use Rattle.scasp_told.specs.Pieces.{grown_at, join_last, last_of, set_last};

use crate::cuts::{insert_in, last_of, piece_of, place_in_last, start_last};
use scasp_list::Memory;
use scasp_trail::Trailed;
use std::alloc::Global;
use std::marker::Model;

/// Items in one list, cut into pieces, of which there is at least one. How many items are in each piece is kept, but for
/// the last one, which has the others.
#[derive(Drop)]
pub struct Told<T> {
    items: Trailed<T>,
    counts: Trailed<usize>,
}

impl<T> Model for Told<T> {
    ghost use Rattle.std.specs.Prelude.{List};
    ghost use Rattle.scasp_trail.specs.Past.{Past};
    ghost use Rattle.scasp_told.specs.Inside.Cuts.{IsCut, past_cut};

    ghost Value = { Past (List T) };

    ghost view = { λ t. past_cut t.counts t.items };

    ghost invariant = { λ t. IsCut t.counts t.items };
}

impl<T: Drop> Told<T> {
    /// One empty piece, without a mark.
    pub fn new(alloc: Global) -> Told<T>
        ensures { result ≡ record { now = [] ∷ []; before = [] } }
    {
        Told {
            items: Trailed::new(alloc),
            counts: Trailed::new(alloc),
        }
    }

    /// How many pieces there are.
    #[tactic(auto, using(crate::proofs::CutLemmas::pieces))]
    pub fn count(&self) -> usize
        ensures count { result ≡ length self.now.now }
        ensures positive { 0 < result }
    {
        self.counts.len() + 1
    }

    /// The items of the piece of this number, from 0.
    pub fn piece(&self, number: usize) -> &[T]
        requires { number < length self.now.now }
        ensures { slice_get self.now.now number ≡ Some result.now }
    {
        piece_of(self.items.as_slice(), self.counts.as_slice(), number)
    }

    /// The items of the last piece.
    pub fn last(&self) -> &[T]
        ensures { result.now ≡ last_of self.now.now }
    {
        last_of(self.items.as_slice(), self.counts.as_slice())
    }

    /// Puts the item at the end of the last piece.
    #[tactic(auto, using(crate::proofs::CutLemmas::put_last, crate::proofs::CutLemmas::longer))]
    pub fn put(&mut self, item: T) -> Result<(), Memory>
        ensures now { OnOk result (self.new.now ≡ grown_at (length self.old.now - 1) item self.old.now) }
        ensures before { self.new.before ≡ self.old.before }
        ensures unchanged { OnErr result (self.new ≡ self.old) }
    {
        self.items.push(item)?;
        Ok(())
    }

    /// Puts the item in the place of the one at `at` of the last piece.
    #[tactic(auto, using(crate::proofs::PlaceLemmas::set_in_last, crate::proofs::PlaceLemmas::fits_set))]
    pub fn set(&mut self, at: usize, item: T) -> Result<(), Memory>
        requires { at < length (last_of self.old.now) }
        ensures now { OnOk result (self.new.now ≡ set_last at item self.old.now) }
        ensures before { self.new.before ≡ self.old.before }
        ensures unchanged { OnErr result (self.new ≡ self.old) }
    {
        let place = place_in_last(self.items.len(), self.counts.as_slice(), at);
        self.items.set(place, item)?;
        Ok(())
    }

    /// Puts the item at the end of the piece of this number, which is not the last one.
    pub fn insert(&mut self, number: usize, item: T) -> Result<(), Memory>
        requires { number + 1 < length self.old.now }
        ensures now { OnOk result (self.new.now ≡ grown_at number item self.old.now) }
        ensures before { self.new.before ≡ self.old.before }
    {
        insert_in(&mut self.items, &mut self.counts, number, item)?;
        Ok(())
    }

    /// Ends the last piece, and begins an empty one.
    #[tactic(auto, using(crate::proofs::CutLemmas::one_more, crate::proofs::CutLemmas::all_counted))]
    pub fn open(&mut self) -> Result<(), Memory>
        ensures now { OnOk result (self.new.now ≡ self.old.now ++ [] ∷ []) }
        ensures before { self.new.before ≡ self.old.before }
        ensures unchanged { OnErr result (self.new ≡ self.old) }
    {
        let len = self.items.len();
        let count = len - start_last(len, self.counts.as_slice());
        self.counts.push(count)?;
        Ok(())
    }

    /// Makes one piece of the last two, if there are two.
    #[tactic(auto, using(crate::proofs::CutLemmas::joined, crate::proofs::CutLemmas::fits_joined))]
    pub fn join(&mut self) -> Result<(), Memory>
        ensures now { OnOk result (self.new.now ≡ join_last self.old.now) }
        ensures before { self.new.before ≡ self.old.before }
        ensures unchanged { OnErr result (self.new ≡ self.old) }
    {
        self.counts.pop()?;
        Ok(())
    }

    /// Whether there is a mark.
    #[tactic(auto, using(crate::proofs::PlaceLemmas::still_marked))]
    pub fn is_marked(&self) -> bool
        ensures { result ≡ is_marked self.now.before }
    {
        self.counts.is_marked()
    }

    /// Marks the pieces as they are now.
    pub fn mark(&mut self) -> Result<(), Memory>
        ensures now { self.new.now ≡ self.old.now }
        ensures before { OnOk result (self.new.before ≡ self.old.now ∷ self.old.before) }
        ensures unchanged { OnErr result (self.new ≡ self.old) }
    {
        self.items.mark()?;
        if self.counts.mark().is_err() {
            self.items.leave();
            return Err(Memory);
        }
        Ok(())
    }

    /// Makes the pieces again what they were at the latest mark, which is taken away; without a mark they stay as they are.
    /// No memory is taken.
    #[tactic(auto, using(crate::proofs::PlaceLemmas::now_left, crate::proofs::PlaceLemmas::before_left, crate::proofs::PlaceLemmas::fits_now, crate::proofs::PlaceLemmas::fits_before))]
    pub fn leave(&mut self)
        ensures now { self.new.now ≡ latest self.old.now self.old.before }
        ensures before { self.new.before ≡ earlier self.old.before }
    {
        self.items.leave();
        self.counts.leave();
    }
}
