//! What is still to be asked of the given constraints, and what they are read by.
ghost use Rattle.std.specs.Prelude.{◌≡◌, [], ◌∷◌, OnErr, OnOk};
ghost use Rattle.scasp_trail.specs.Past.{earlier, latest};

use scasp_bound::Bound;
use scasp_list::Memory;
use scasp_trail::Trailed;
use std::alloc::Global;

/// What is known of the bindings and the given constraints.
#[derive(Clone, Copy)]
pub(crate) enum Known {
    /// Nothing: a change has failed.
    Nothing,
    /// What they are read by.
    Read,
    /// That they have no valuation together.
    Contrary,
}

/// What is still to be asked of the given constraints, and what they are read by.
#[derive(Drop)]
pub(crate) struct Rest {
    /// The bindings, and numbers that given constraints leave to variables.
    pub(crate) reading: Bound,
    /// The variables to which numbers are left.
    pub(crate) fixed: Trailed<u64>,
    /// The places of the given constraints that are to be asked: one that holds as it reads, whatever its variables stand
    /// for, is not. They are in no order.
    pub(crate) places: Trailed<usize>,
}

impl Rest {
    /// Nothing is to be asked, and there is no mark; no memory is taken.
    pub(crate) fn new(alloc: Global) -> Rest
        ensures reading { result.reading ≡ record { now = []; before = [] } }
        ensures fixed { result.fixed ≡ record { now = []; before = [] } }
        ensures places { result.places ≡ record { now = []; before = [] } }
    {
        Rest {
            reading: Bound::new(alloc),
            fixed: Trailed::new(alloc),
            places: Trailed::new(alloc),
        }
    }

    /// Marks each part.
    pub(crate) fn mark(&mut self) -> Result<(), Memory>
        ensures reading { self.new.reading.now ≡ self.old.reading.now }
        ensures fixed { self.new.fixed.now ≡ self.old.fixed.now }
        ensures places { self.new.places.now ≡ self.old.places.now }
        ensures reading_before { OnOk result (self.new.reading.before ≡ self.old.reading.now ∷ self.old.reading.before) }
        ensures fixed_before { OnOk result (self.new.fixed.before ≡ self.old.fixed.now ∷ self.old.fixed.before) }
        ensures places_before { OnOk result (self.new.places.before ≡ self.old.places.now ∷ self.old.places.before) }
        ensures unchanged { OnErr result (self.new ≡ self.old) }
    {
        self.reading.mark()?;
        if self.fixed.mark().is_err() {
            self.reading.leave();
            return Err(Memory);
        }
        if self.places.mark().is_err() {
            self.reading.leave();
            self.fixed.leave();
            return Err(Memory);
        }
        Ok(())
    }

    /// Makes each part again what it was at its latest mark, which is taken away.
    pub(crate) fn leave(&mut self)
        ensures reading { self.new.reading.now ≡ latest self.old.reading.now self.old.reading.before }
        ensures fixed { self.new.fixed.now ≡ latest self.old.fixed.now self.old.fixed.before }
        ensures places { self.new.places.now ≡ latest self.old.places.now self.old.places.before }
        ensures reading_before { self.new.reading.before ≡ earlier self.old.reading.before }
        ensures fixed_before { self.new.fixed.before ≡ earlier self.old.fixed.before }
        ensures places_before { self.new.places.before ≡ earlier self.old.places.before }
    {
        self.reading.leave();
        self.fixed.leave();
        self.places.leave();
    }
}
