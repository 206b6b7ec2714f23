//! A list whose changes can be undone.
ghost use Rattle.std.specs.Prelude.{◌≡◌, ◌-◌, ◌^◌, ◌<◌, ◌≤◌, [], ◌∷◌, ◌++◌, length, reverse, slice_get, slice_set, take, vec_capacity, OnOk, OnErr, Some};
ghost use Rattle.std.specs.List.{insert};
ghost use Rattle.scasp_trail.specs.Past.{earlier, is_marked, latest};
ghost use Rattle.scasp_trail.specs.Inside.Undoing.{CanUndo, GoesBack, IsUndoable, Speaks, mark_of, marked, taken_back};

use crate::change::Change;
use scasp_list::Memory;
use std::alloc::Global;
use std::marker::Model;
use std::mem;

/// A list that can be marked, and made again what it was at a mark. What a change overwrites is kept where the latest mark
/// has it, and nowhere else; without a mark nothing is kept.
#[derive(Drop)]
pub struct Trailed<T> {
    items: Vec<T>,
    /// How many of the first items are those of the latest mark, but for the changes.
    kept: usize,
    /// The marks, and what was overwritten since each of them.
    changes: Vec<Change<T>>,
}

impl<T> Model for Trailed<T> {
    ghost use Rattle.std.specs.Prelude.{length, vec_capacity};
    ghost use Rattle.scasp_trail.specs.Past.{Past};
    ghost use Rattle.scasp_trail.specs.Inside.Undoing.{IsUndoable, past_of};

    ghost Value = { Past T };

    ghost view = { λ t. past_of t.kept t.items.items t.changes.items };

    ghost invariant = { λ t. IsUndoable (vec_capacity t.items) (length t.items.items) t.kept t.changes.items };
}

impl<T: Drop> Trailed<T> {
    /// An empty list without a mark, which takes no memory.
    pub fn new(alloc: Global) -> Trailed<T>
        ensures { result ≡ record { now = []; before = [] } }
    {
        Trailed {
            items: Vec::new(alloc),
            kept: 0,
            changes: Vec::new(alloc),
        }
    }

    /// The items.
    pub fn as_slice(&self) -> &[T]
        ensures { result.now ≡ self.now.now }
    {
        self.items.as_slice()
    }

    /// How many items there are.
    pub fn len(&self) -> usize
        ensures len { result ≡ length self.now.now }
        ensures small { result < 2 ^ 63 }
    {
        self.items.len()
    }

    /// Whether there is a mark.
    pub fn is_marked(&self) -> bool
        ensures { result ≡ is_marked self.now.before }
    {
        !self.changes.is_empty()
    }

    /// Puts the item behind the others.
    pub fn push(&mut self, item: T) -> Result<(), Memory>
        ensures now { OnOk result (self.new.now ≡ self.old.now ++ item ∷ []) }
        ensures before { self.new.before ≡ self.old.before }
        ensures unchanged { OnErr result (self.new ≡ self.old) }
    {
        self.items.push(item)?;
        Ok(())
    }

    /// Takes the last item away, if there is one.
    pub fn pop(&mut self) -> Result<(), Memory>
        ensures now { OnOk result (self.new.now ≡ take (length self.old.now - 1) self.old.now) }
        ensures before { self.new.before ≡ self.old.before }
        ensures unchanged { OnErr result (self.new ≡ self.old) }
    {
        if self.kept < self.items.len() {
            let _item = self.items.pop();
            return Ok(());
        }
        self.changes.reserve(1)?;
        if let Some(item) = self.items.pop() {
            self.kept -= 1;
            self.changes.push_reserved(Change::Popped(item));
        }
        Ok(())
    }

    /// Puts the item in the place of the one at `at`.
    pub fn set(&mut self, at: usize, item: T) -> Result<(), Memory>
        requires { at < length self.old.now }
        ensures now { OnOk result (self.new.now ≡ slice_set self.old.now at item) }
        ensures before { self.new.before ≡ self.old.before }
        ensures unchanged { OnErr result (self.new ≡ self.old) }
    {
        if self.kept <= at {
            self.items[at] = item;
            return Ok(());
        }
        self.changes.reserve(1)?;
        let old = replace_at(&mut self.items, at, item);
        self.changes.push_reserved(Change::Replaced(at, old));
        Ok(())
    }

    /// Puts the item before the one at `at`, or behind all.
    pub fn insert(&mut self, at: usize, item: T) -> Result<(), Memory>
        requires { at ≤ length self.old.now }
        ensures now { OnOk result (self.new.now ≡ insert self.old.now at item) }
        ensures before { self.new.before ≡ self.old.before }
        ensures unchanged { OnErr result (self.new ≡ self.old) }
    {
        if self.kept <= at {
            self.items.insert(at, item)?;
            return Ok(());
        }
        self.changes.reserve(1)?;
        self.items.insert(at, item)?;
        self.kept += 1;
        self.changes.push_reserved(Change::Inserted(at));
        Ok(())
    }

    /// Marks the list as it is now.
    pub fn mark(&mut self) -> Result<(), Memory>
        ensures now { self.new.now ≡ self.old.now }
        ensures before { OnOk result (self.new.before ≡ self.old.now ∷ self.old.before) }
        ensures unchanged { OnErr result (self.new ≡ self.old) }
    {
        self.changes.push(Change::Mark(self.kept))?;
        self.kept = self.items.len();
        Ok(())
    }

    /// Makes the list again what it was at the latest mark, which is taken away; without a mark it stays as it is. No memory
    /// is taken.
    #[tactic(auto, using(crate::proofs::UndoLemmas::latest_none, crate::proofs::UndoLemmas::earlier_none, crate::proofs::UndoLemmas::latest_left, crate::proofs::UndoLemmas::earlier_left))]
    pub fn leave(&mut self)
        ensures now { self.new.now ≡ latest self.old.now self.old.before }
        ensures before { self.new.before ≡ earlier self.old.before }
    {
        if !self.is_marked() {
            return;
        }
        self.items.truncate(self.kept);
        self.kept = go_back(&mut self.items, &mut self.changes);
    }
}

/// Puts the item in the place of the one at `at`, which is returned.
fn replace_at<T>(items: &mut Vec<T>, at: usize, item: T) -> T
    requires { at < length items.old.items }
    ensures old { slice_get items.old.items at ≡ Some result }
    ensures items { items.new.items ≡ slice_set items.old.items at item }
    ensures room { vec_capacity items.new ≡ vec_capacity items.old }
{
    mem::replace(&mut items[at], item)
}

/// How many items the mark before has, if it is a mark.
fn mark_of<T>(change: &Change<T>) -> Option<usize>
    ensures { result ≡ mark_of change.now }
{
    match change {
        Change::Mark(kept) => Some(*kept),
        Change::Popped(_) | Change::Replaced(_, _) | Change::Inserted(_) => None,
    }
}

/// Takes the change back.
fn take_back<T: Drop>(items: &mut Vec<T>, change: Change<T>)
    requires { Speaks (vec_capacity items.old) change (length items.old.items) }
    ensures items { items.new.items ≡ taken_back change items.old.items }
    ensures room { vec_capacity items.new ≡ vec_capacity items.old }
{
    match change {
        Change::Mark(kept) => items.truncate(kept),
        Change::Popped(item) => items.push_reserved(item),
        Change::Replaced(at, item) => {
            let _item = replace_at(items, at, item);
        }
        Change::Inserted(at) => {
            let _item = items.remove(at);
        }
    }
}

/// Takes the changes since the latest mark back, and the mark away. It gives how many of the first items are those of the
/// mark before.
fn go_back<T: Drop>(items: &mut Vec<T>, changes: &mut Vec<Change<T>>) -> usize
    requires { CanUndo (vec_capacity items.old) (reverse changes.old.items) (length items.old.items) }
    ensures back { GoesBack (marked (reverse changes.old.items) items.old.items) items.new.items (marked (reverse changes.new.items) (take result items.new.items)) }
    ensures undoable { IsUndoable (vec_capacity items.new) (length items.new.items) result changes.new.items }
{
    while let Some(change) = changes.pop() {
        if let Some(kept) = mark_of(&change) {
            return kept;
        }
        take_back(items, change);
    }
    0
}
