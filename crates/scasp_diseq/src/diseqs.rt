//! Excluded shapes and pending disequations.
ghost use Rattle.std.specs.Prelude.{◌≡◌, ◌↔◌, List, [], ◌∷◌, ◌++◌, length, take, filter, Contains, IsTrue, IfOk, OnOk, OnErr};
ghost use Rattle.scasp_syntax.specs.declared.con.Con.{Con as ThisCon};
ghost use Rattle.scasp_diseq.specs.Pending.{is_pending_on};

use crate::finding::{is_excluded, woken};
use crate::mentions::Mentions;
use crate::noting::note_sides;
use crate::posted::Posted;
use scasp_cells::Cells;
use scasp_list::Memory;
use scasp_name::NameId;
use scasp_syntax::{Con, Cons, Term, copy};
use std::alloc::Global;
use std::marker::Model;

/// A time to go back to, of the store that gave it: how many shapes and disequations there were. To another store it is
/// the time of as many of its own; where there are not so many, as there are not after an undo to an earlier mark, it is
/// now.
#[derive(Clone, Copy, Debug, PartialEq, Eq)]
pub struct DiseqMark {
    posted: u64,
}

impl Model for DiseqMark {
    ghost use Rattle.std.specs.Prelude.{ℕ};

    ghost Value = { ℕ };

    ghost view = { λ m. m.posted };

    ghost inverse = { λ n. record { posted = n } };
}

/// Excluded shapes and pending disequations in the order posted, found by variable, which can be undone.
#[derive(Drop)]
pub struct Diseqs {
    posted: Cells<Posted>,
    mentions: Mentions,
    alloc: Global,
}

impl Model for Diseqs {
    ghost use Rattle.std.specs.Prelude.{List};
    ghost use Rattle.std.specs.Coded.{codes};
    ghost use Rattle.scasp_syntax.specs.TmCode.{coded_tms};
    ghost use Rattle.scasp_syntax.specs.declared.con.Con.{Con as ThisCon};
    ghost use Rattle.scasp_diseq.specs.Inside.Indexed.{IsIndexed, cons_of};

    ghost Value = { List ThisCon };

    ghost coded = { Prim.hlevel (codes, coded_tms) };

    ghost view = { λ d. cons_of d.posted.items };

    ghost invariant = { λ d. IsIndexed d.posted.items d.mentions };
}

impl Diseqs {
    /// Nothing is kept; no memory is taken.
    pub fn new(alloc: Global) -> Diseqs
        ensures { result ≡ [] }
    {
        Diseqs {
            posted: Cells::new(alloc),
            mentions: Mentions::new(alloc),
            alloc,
        }
    }

    /// Keeps that the variable is not this name with so many arguments.
    pub fn exclude(&mut self, x: u64, name: NameId, arity: u64) -> Result<(), Memory>
        ensures ok { OnOk result (self.new ≡ self.old ++ Con.NotShape x name arity ∷ []) }
        ensures err { OnErr result (self.new ≡ self.old) }
    {
        self.posted.make_room()?;
        let before = self.mentions.len();
        let place = self.posted.len();
        self.mentions.note(x, place)?;
        let con = Con::NotShape(x, name, arity);
        self.posted.push_reserved(Posted { con, before });
        Ok(())
    }

    /// Whether it is kept that the variable is not this name with so many arguments. It goes through what is kept of the
    /// variable alone, and takes no memory.
    pub fn excludes(&self, x: u64, name: NameId, arity: u64) -> bool
        ensures { IsTrue result ↔ Contains self.now (Con.NotShape x name arity) }
    {
        is_excluded(&self.posted, &self.mentions, x, name, arity)
    }

    /// Keeps that the two terms differ.
    pub fn post(&mut self, left: &Term, right: &Term) -> Result<(), Memory>
        ensures ok { OnOk result (self.new ≡ self.old ++ Con.Neq left.now right.now ∷ []) }
        ensures err { OnErr result (self.new ≡ self.old) }
    {
        let first = copy(self.alloc, left)?;
        let second = copy(self.alloc, right)?;
        self.posted.make_room()?;
        let before = self.mentions.len();
        let place = self.posted.len();
        if note_sides(self.alloc, &mut self.mentions, place, left, right).is_err() {
            self.mentions.take_back(before);
            return Err(Memory);
        }
        let con = Con::Neq(first, second);
        self.posted.push_reserved(Posted { con, before });
        Ok(())
    }

    /// The disequations in which the variable stands, in the order posted. It goes through what is kept of the variable
    /// alone.
    pub fn wake(&self, x: u64) -> Result<Cons, Memory>
        ensures { IfOk result (λ woken. woken ≡ filter (is_pending_on x) self.now) }
    {
        woken(self.alloc, &self.posted, &self.mentions, x)
    }

    /// The present time. Whatever is posted after it, `undo` gives back just what there is now.
    pub fn mark(&self) -> DiseqMark
        ensures posted { result ≡ length self.now }
        ensures given_back { (after : List ThisCon) → take result (self.now ++ after) ≡ self.now }
    {
        DiseqMark {
            posted: self.posted.len(),
        }
    }

    /// Undoes what was posted since the mark, which can be undone to again. No memory is taken. Where there is no more than
    /// at the mark, nothing changes.
    pub fn undo(&mut self, mark: DiseqMark)
        ensures { self.new ≡ take mark self.old }
    {
        if mark.posted < self.posted.len() {
            let before = self.posted.get(mark.posted).before;
            self.mentions.take_back(before);
            self.posted.rewind(mark.posted);
        }
    }
}
