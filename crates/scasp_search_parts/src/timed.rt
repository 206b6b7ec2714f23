//! Lists of which each earlier time can be gone back to.
ghost use Rattle.std.specs.Prelude.{◌≡◌, ◌-◌, ◌<◌, [], ◌∷◌, ◌++◌, length, slice_set, take, OnErr, OnOk};
ghost use Rattle.scasp_search_parts.specs.Times.{after, times, times_at};
ghost use Rattle.scasp_trail.specs.Past.{earlier, latest};

use scasp_list::Memory;
use scasp_trail::Trailed;
use std::alloc::Global;
use std::marker::Model;

/// A list that is marked before each change.
#[derive(Drop)]
pub(crate) struct Timed<T> {
    list: Trailed<T>,
    changes: u64,
}

impl<T> Model for Timed<T> {
    ghost use Rattle.std.specs.Prelude.{◌≡◌, length};
    ghost use Rattle.scasp_trail.specs.Past.{Past};

    ghost Value = { Past T };

    ghost view = { λ t. t.list };

    ghost invariant = { λ t. t.changes ≡ length t.list.before };
}

impl<T: Drop> Timed<T> {
    /// An empty list that was never changed; no memory is taken.
    pub(crate) fn new(alloc: Global) -> Timed<T>
        ensures { result ≡ record { now = []; before = [] } }
    {
        Timed {
            list: Trailed::new(alloc),
            changes: 0,
        }
    }

    /// The items.
    pub(crate) fn as_slice(&self) -> &[T]
        ensures { result.now ≡ self.now.now }
    {
        self.list.as_slice()
    }

    /// How many changes there were.
    pub(crate) fn changes(&self) -> u64
        ensures { result ≡ length self.now.before }
    {
        self.changes
    }

    /// Puts the item behind the others.
    #[tactic(auto, using(crate::proofs::TimeLemmas::went_back))]
    pub(crate) fn push(&mut self, item: T) -> Result<(), Memory>
        ensures changed { OnOk result (self.new ≡ after self.old (self.old.now ++ item ∷ [])) }
        ensures unchanged { OnErr result (self.new ≡ self.old) }
    {
        self.begin()?;
        if self.list.push(item).is_err() {
            self.back();
            return Err(Memory);
        }
        Ok(())
    }

    /// Takes the last item away, if there is one.
    #[tactic(auto, using(crate::proofs::TimeLemmas::went_back))]
    pub(crate) fn pop(&mut self) -> Result<(), Memory>
        ensures changed { OnOk result (self.new ≡ after self.old (take (length self.old.now - 1) self.old.now)) }
        ensures unchanged { OnErr result (self.new ≡ self.old) }
    {
        self.begin()?;
        if self.list.pop().is_err() {
            self.back();
            return Err(Memory);
        }
        Ok(())
    }

    /// Puts the item in the place of the one at `at`.
    #[tactic(auto, using(crate::proofs::TimeLemmas::went_back))]
    pub(crate) fn set(&mut self, at: usize, item: T) -> Result<(), Memory>
        requires { at < length self.old.now }
        ensures changed { OnOk result (self.new ≡ after self.old (slice_set self.old.now at item)) }
        ensures unchanged { OnErr result (self.new ≡ self.old) }
    {
        self.begin()?;
        if self.list.set(at, item).is_err() {
            self.back();
            return Err(Memory);
        }
        Ok(())
    }

    /// Undoes all changes but so many. No memory is taken.
    #[tactic(auto, using(crate::proofs::TimeLemmas::one_back, crate::proofs::TimeLemmas::at_now))]
    pub(crate) fn undo(&mut self, changes: u64)
        ensures { times self.new ≡ times_at changes self.old }
    {
        while self.changes > changes {
            self.back();
        }
    }

    /// Begins a change.
    fn begin(&mut self) -> Result<(), Memory>
        ensures begun { OnOk result (self.new ≡ after self.old self.old.now) }
        ensures unchanged { OnErr result (self.new ≡ self.old) }
    {
        let Some(changes) = self.changes.checked_add(1) else {
            return Err(Memory);
        };
        self.list.mark()?;
        self.changes = changes;
        Ok(())
    }

    /// Takes the latest change back, if there is one.
    #[tactic(auto, using(crate::proofs::TimeLemmas::one_less))]
    fn back(&mut self)
        ensures now { self.new.now ≡ latest self.old.now self.old.before }
        ensures before { self.new.before ≡ earlier self.old.before }
    {
        self.list.leave();
        self.changes = self.changes.saturating_sub(1);
    }
}
