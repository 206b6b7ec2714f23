//! Names as places in the table.
ghost use Rattle.std.specs.Prelude.{◌≡◌};

use std::marker::Model;

/// A name: the place of its text in a [`Names`](crate::Names), counted from 0.
#[derive(Clone, Copy, Debug, PartialEq, Eq, Hash)]
pub struct NameId {
    place: u64,
}

impl Model for NameId {
    ghost use Rattle.std.specs.Prelude.{ℕ};

    ghost Value = { ℕ };

    ghost view = { λ a. a.place };

    ghost inverse = { λ n. record { place = n } };
}

/// The name `[]` of the empty list.
pub const NIL: NameId = NameId { place: 0 };

/// The name `[|]` of a list with a first element and a rest.
pub const PAIR: NameId = NameId { place: 1 };

impl NameId {
    /// The name at this place.
    pub fn new(place: u64) -> NameId
        ensures { result ≡ place }
    {
        NameId { place }
    }

    /// The place of the name's text.
    pub fn place(self) -> u64
        ensures { result ≡ self }
    {
        self.place
    }
}
