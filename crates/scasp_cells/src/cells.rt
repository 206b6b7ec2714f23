ghost use Rattle.std.specs.Prelude.{◌≡◌, ℕ, ◌+◌, ◌-◌, ◌^◌, ◌<◌, ◌≤◌, ◌↔◌, [], ◌∷◌, ◌++◌, length, take, slice_get, slice_set, Some, IsTrue, IsOk, OnOk, OnErr, IfOk, IfErr};
ghost use Rattle.std.specs.Bool.{OnTrue, OnFalse};
ghost use Rattle.scasp_cells.specs.Filled.{joined, IsFilled};

use crate::place::{locate, room, size};
use crate::segment::Segment;
use scasp_list::Memory;
use std::alloc::Global;
use std::marker::Model;
use std_alloc::room::may_hold;

/// A stack of items that lie in segments of doubling size and never move.
pub struct Cells<T> {
    segments: Vec<Segment<T, Global>>,
    len: u64,
}

impl<T> Model for Cells<T> {
    ghost use Rattle.scasp_cells.specs.Stack.{Stack};
    ghost use Rattle.scasp_cells.specs.Filled.{stack_of, IsFilled};

    ghost Value = { Stack T };

    ghost view = { λ c. stack_of c.len c.segments.items };

    ghost invariant = { λ c. IsFilled c.len c.segments.items };
}

/// Drops the items, newest first, and frees the segments.
impl<T: Drop> Drop for Cells<T> {
    fn drop(mut self) {
        self.rewind(0);
        let Cells {
            segments: _,
            len: _,
        } = self;
    }
}

impl<T> Cells<T> {
    /// An empty stack, which takes no memory.
    pub fn new(alloc: Global) -> Cells<T>
        ensures items { result.items ≡ [] }
        ensures spare { result.spare ≡ 0 }
    {
        Cells {
            segments: Vec::new(alloc),
            len: 0,
        }
    }

    /// The number of items.
    pub fn len(&self) -> u64
        ensures len { result ≡ length self.now.items }
        ensures small { result + self.now.spare < 2 ^ 63 }
    {
        self.len
    }

    /// Whether there is no item.
    pub fn is_empty(&self) -> bool
        ensures { IsTrue result ↔ (self.now.items ≡ []) }
    {
        self.len() == 0
    }

    /// For how many more items there is room already.
    pub fn spare(&self) -> u64
        ensures spare { result ≡ self.now.spare }
        ensures small { length self.now.items + result < 2 ^ 63 }
    {
        room(self.segments.len()) - self.len
    }

    /// Makes room for `n` more items. After an error the stack is unchanged.
    pub fn reserve(&mut self, n: u64) -> Result<(), Memory>
        requires { length self.old.items + n < 2 ^ 63 }
        ensures items { self.new.items ≡ self.old.items }
        ensures ok { OnOk result (n ≤ self.new.spare) }
        ensures unchanged { OnErr result (self.new ≡ self.old) }
        ensures kept { self.old.spare ≤ self.new.spare }
        ensures enough { n ≤ self.old.spare → IsOk result × (self.new.spare ≡ self.old.spare) }
    {
        let count = self.segment_count();
        while self.spare() < n {
            if !self.grow() {
                self.shrink(count);
                return Err(Memory);
            }
        }
        Ok(())
    }

    /// Makes room for one more item. Want of memory is also told where there are as many items as there can be. After an
    /// error the stack is unchanged.
    pub fn make_room(&mut self) -> Result<(), Memory>
        ensures items { self.new.items ≡ self.old.items }
        ensures ok { OnOk result (0 < self.new.spare) }
        ensures unchanged { OnErr result (self.new ≡ self.old) }
    {
        if self.len() >= MOST {
            return Err(Memory);
        }
        self.reserve(1)
    }

    // Adds a segment, if there is memory for it.
    fn grow(&mut self) -> bool
        requires { length self.old.items + self.old.spare < 2 ^ 63 - 1 }
        ensures items { self.new.items ≡ self.old.items }
        ensures more { OnTrue result (self.old.spare < self.new.spare) }
        ensures same { OnFalse result (self.new.spare ≡ self.old.spare) }
    {
        add_segment(&mut self.segments)
    }

    // The number of segments.
    fn segment_count(&self) -> usize
        ensures { 2 ^ result ≡ length self.now.items + self.now.spare + 1 }
    {
        self.segments.len()
    }

    // Frees the segments from the number `count` on, which are empty.
    fn shrink(&mut self, count: usize)
        requires { (length self.old.items < 2 ^ count) × (2 ^ count ≤ length self.old.items + self.old.spare + 1) }
        ensures items { self.new.items ≡ self.old.items }
        ensures spare { length self.new.items + self.new.spare + 1 ≡ 2 ^ count }
    {
        while self.segment_count() > count {
            self.free_last();
        }
    }

    // Frees the last segment, where the items have room without it.
    fn free_last(&mut self)
        requires { length self.old.items < self.old.spare }
        ensures items { self.new.items ≡ self.old.items }
        ensures spare { length self.new.items + self.new.spare + self.new.spare + 1 ≡ self.old.spare }
    {
        if let Some(segment) = self.segments.pop() {
            let _alloc = segment.free();
        }
    }

    /// Puts `item` on top and returns its place. It comes back where there is no memory for it, which
    /// is never so while there is room already.
    pub fn push(&mut self, item: T) -> Result<u64, T>
        requires { length self.old.items < 2 ^ 63 - 1 }

        ensures pushed { OnOk result (self.new.items ≡ self.old.items ++ item ∷ []) }
        ensures place { IfOk result (λ at. at ≡ length self.old.items) }
        ensures returned { IfErr result (λ back. back ≡ item) }
        ensures unchanged { OnErr result (self.new ≡ self.old) }

        // Room that is there is used, and then nothing is allocated.
        ensures succeeds { 0 < self.old.spare → IsOk result }
        ensures spare { 0 < self.old.spare → self.new.spare + 1 ≡ self.old.spare }
    {
        let at = self.len;
        let place = locate(at);
        if !has_segment(&mut self.segments, place.segment) {
            return Err(item);
        }
        let segment = &mut self.segments[place.segment];
        segment.push(item);
        self.len = at + 1;
        Ok(at)
    }

    /// Puts `item` on top, for which there is room already. No memory is taken.
    pub fn push_reserved(&mut self, item: T)
    where
        T: Drop,
        requires { 0 < self.old.spare }
        ensures items { self.new.items ≡ self.old.items ++ item ∷ [] }
        ensures spare { self.new.spare + 1 ≡ self.old.spare }
    {
        let _spare = self.spare();
        let _place = self.push(item);
    }

    /// The item at the place `at`.
    pub fn get(&self, at: u64) -> &T
        requires { at < length self.now.items }
        ensures { slice_get self.now.items at ≡ Some result.now }
    {
        let segments = &self.segments;
        let place = locate(at);
        &segments[place.segment].as_slice()[place.offset]
    }

    /// Puts `item` in the place of the one at `at`, which is returned.
    pub fn set(&mut self, at: u64, item: T) -> T
        requires { at < length self.old.items }
        ensures old { slice_get self.old.items at ≡ Some result }
        ensures items { self.new.items ≡ slice_set self.old.items at item }
        ensures spare { self.new.spare ≡ self.old.spare }
    {
        let segments = &mut self.segments;
        let place = locate(at);
        segments[place.segment].replace(place.offset, item)
    }

    // Takes the newest item off.
    fn pop(&mut self) -> T
        requires { 0 < length self.old.items }
        ensures items { self.old.items ≡ self.new.items ++ result ∷ [] }
        ensures spare { self.new.spare ≡ self.old.spare + 1 }
    {
        let last = self.len - 1;
        let place = locate(last);
        let segment = &mut self.segments[place.segment];
        let item = segment.pop();
        self.len = last;
        item
    }

    /// Drops the items from the place `len` on, newest first. Their room is kept for later ones.
    pub fn rewind(&mut self, len: u64)
    where
        T: Drop,
        requires { len ≤ length self.old.items }
        ensures items { self.new.items ≡ take len self.old.items }
        ensures spare { self.new.spare ≡ self.old.spare + (length self.old.items - len) }
    {
        while self.len() > len {
            let _item = self.pop();
        }
    }
}

// Sees to it that there is a segment of this number.
fn has_segment<T>(segments: &mut Vec<Segment<T, Global>>, segment: usize) -> bool
    requires { (segment ≤ length segments.old.items) × (segment < 63) }
    ensures found { OnTrue result (segment < length segments.new.items) }
    ensures kept { segment < length segments.old.items → IsTrue result × (segments.new.items ≡ segments.old.items) }
    ensures not_found { OnFalse result (segments.new.items ≡ segments.old.items) }
    ensures joined { joined segments.new.items ≡ joined segments.old.items }
    ensures filled { (len : ℕ) → IsFilled len segments.old.items → IsFilled len segments.new.items }
{
    segment < segments.len() || add_segment(segments)
}

// Adds a segment, with room for twice as many items as the last one.
fn add_segment<T>(segments: &mut Vec<Segment<T, Global>>) -> bool
    requires { length segments.old.items < 63 }
    ensures added { OnTrue result (length segments.new.items ≡ length segments.old.items + 1) }
    ensures kept { OnFalse result (segments.new.items ≡ segments.old.items) }
    ensures joined { joined segments.new.items ≡ joined segments.old.items }
    ensures filled { (len : ℕ) → IsFilled len segments.old.items → IsFilled len segments.new.items }
{
    let cap = size(segments.len()) as usize;
    if !may_hold::<T>(cap) || segments.reserve(1).is_err() {
        return false;
    }
    match Segment::allocate(*segments.allocator(), cap) {
        Ok(segment) => {
            segments.push_reserved(segment);
            true
        }
        Err(_) => false,
    }
}

// The most items of a stack.
const MOST: u64 = (1 << 63) - 1;
