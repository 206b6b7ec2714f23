//! The open sessions.
ghost use Rattle.std.specs.Prelude.{◌≡◌, ◌<◌, ◌≤◌, ◌+◌, ◌^◌};
ghost use Rattle.std.specs.List.{position_from};
ghost use Rattle.scasp_sessions.specs.Calls.{Advancing, Closing, Opening};
ghost use Rattle.scasp_sessions.specs.Tables.{calls_in, has_number, no_sessions};

use crate::errors::{NoSession, OpenErr};
use crate::session::Session;
use scasp_search::{Advance, Search};
use scasp_syntax::Program;
use std::alloc::Global;
use std::marker::Model;

/// How many sessions may be open at once.
pub const MOST_OPEN: usize = 64;

/// The sessions that are open, in the order of opening, and the number of the next one. A number is used once.
pub struct Sessions {
    opened: Vec<Session>,
    next: u64,
}

impl Drop for Sessions {
    /// Frees the parts. The crates above call this, and need not prove how each part is freed.
    fn drop(self) {
        let Sessions { opened, next: _ } = self;
        drop(opened);
    }
}

impl Model for Sessions {
    ghost use Rattle.std.specs.Coded.{codes};
    ghost use Rattle.scasp_sessions.specs.Tables.{Table};
    ghost use Rattle.scasp_syntax.specs.TmCode.{coded_tms};

    ghost Value = { Table };

    ghost coded = { Prim.hlevel (codes, coded_tms) };

    ghost view = { λ s. record { opened = s.opened.items; next = s.next } };
}

impl Sessions {
    /// No session; the first will have the number 1. Takes no memory.
    pub fn new(alloc: Global) -> Sessions
        ensures { result ≡ no_sessions }
    {
        Sessions {
            opened: Vec::new(alloc),
            next: 1,
        }
    }

    /// Opens a session for the query of this number, from 1, within so many calls, and gives its number. `fresh` is the first name
    /// that the samples of answers may use.
    ///
    /// # Errors
    ///
    /// `NoQuery` exactly where the program has no query of that number; else `Full` exactly where 64 sessions are open; want of
    /// memory. Nothing has changed then.
    pub fn open(
        &mut self,
        program: &Program,
        query: u64,
        budget: u64,
        fresh: u64,
    ) -> Result<u64, OpenErr>
        requires { self.old.next < 2 ^ 63 }
        ensures reply { Opening self.old program.now query budget fresh result self.new }
        ensures next { self.new.next ≤ self.old.next + 1 }
    {
        if program.query(query).is_none() {
            return Err(OpenErr::NoQuery);
        }
        if self.opened.len() >= MOST_OPEN {
            return Err(OpenErr::Full);
        }
        let search = Search::open(*self.opened.allocator(), program, query, budget, fresh)?;
        let number = self.next;
        self.opened.push(Session { number, search })?;
        self.next += 1;
        Ok(number)
    }

    /// What comes within so many calls of the session with the number, as `Search::advance` has it. Every other session stays as
    /// it is.
    ///
    /// # Errors
    ///
    /// No open session has the number; nothing has changed then.
    pub fn next(&mut self, id: u64, calls: u64) -> Result<Advance, NoSession>
        ensures reply { Advancing self.old id calls result self.new }
        ensures next { self.new.next ≡ self.old.next }
    {
        match place_of(&self.opened, id) {
            Some(place) => {
                let session = &mut self.opened[place];
                Ok(session.search.advance(calls))
            }
            None => Err(NoSession),
        }
    }

    /// How many calls the session with the number has spent; none where no open session has it. Takes no memory.
    pub fn calls(&self, id: u64) -> Option<u64>
        ensures { result ≡ calls_in id self.now }
    {
        match place_of(&self.opened, id) {
            Some(place) => {
                let session = &self.opened[place];
                Some(session.search.calls())
            }
            None => None,
        }
    }

    /// Ends the session with the number. Takes no memory.
    ///
    /// # Errors
    ///
    /// No open session has the number; nothing has changed then.
    pub fn close(&mut self, id: u64) -> Result<(), NoSession>
        ensures reply { Closing self.old id result self.new }
        ensures next { self.new.next ≡ self.old.next }
    {
        match place_of(&self.opened, id) {
            Some(place) => {
                self.opened.remove(place);
                Ok(())
            }
            None => Err(NoSession),
        }
    }
}

/// Where the session with the number stands.
fn place_of(opened: &[Session], id: u64) -> Option<usize>
    ensures { result ≡ position_from (has_number id) 0 opened.now }
{
    opened.iter().position(|session| session.number == id)
}
