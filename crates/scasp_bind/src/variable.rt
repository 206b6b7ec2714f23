//! Variables, and the changes of them.
ghost use Rattle.std.specs.Prelude.{◌≡◌};

use scasp_syntax::Term;
use std::marker::Model;

/// The kind of a variable.
#[derive(Clone, Copy, Debug, PartialEq, Eq)]
pub enum Sort {
    Existential,
    Universal,
}

/// What is kept of a variable.
#[derive(Debug, Drop)]
pub struct Variable {
    pub sort: Sort,
    pub depth: u64,
    /// What it is bound to.
    pub term: Option<Term>,
}

/// A change, with what it has overwritten.
#[derive(Debug, Drop)]
pub enum Change {
    /// One more variable was made.
    Made,
    /// The depth of this variable was another one.
    Depth(u64, u64),
    /// The variable of this number was bound to this, or unbound.
    Term(u64, Option<Term>),
}

/// A time to go back to, of the store that gave it: how many changes there were. To another store it is the time of as
/// many changes of its own; where there were not so many, as there are not after an undo to an earlier mark, it is now.
#[derive(Clone, Copy, Debug, PartialEq, Eq)]
pub struct BindMark {
    changes: u64,
}

impl Model for BindMark {
    ghost use Rattle.std.specs.Prelude.{ℕ};

    ghost Value = { ℕ };

    ghost view = { λ m. m.changes };

    ghost inverse = { λ n. record { changes = n } };
}

impl BindMark {
    /// The time after so many changes.
    pub(crate) fn after(changes: u64) -> BindMark
        ensures { result ≡ changes }
    {
        BindMark { changes }
    }

    /// How many changes there were.
    pub(crate) fn change_count(self) -> u64
        ensures { result ≡ self }
    {
        self.changes
    }
}
