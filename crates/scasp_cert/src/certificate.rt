//! Certificates.

ghost use Rattle.std.specs.Prelude.{◌≡◌, ◌++◌, ◌∷◌, [], map, length, slice_get, OnOk, OnErr};
ghost use Rattle.std.specs.Option.{option_copied, option_map};
ghost use Rattle.scasp_cert.specs.Certificate.{check_of, checks_of};

use crate::lists::item_at;
use crate::tree::{Case, Nodes};
use scasp_name::Memory;
use scasp_syntax::{Cons, Hint, PredMaps, Sequence, Terms};
use std::alloc::Global;

/// An answer to a query. Its free variables are those numbered below the length of `sample`.
#[derive(Drop)]
pub struct Cert {
    /// The number of the query, from 1.
    pub query: u64,
    /// What the query's variables stand for.
    pub terms: Terms,
    /// What the free variables have to meet.
    pub given: Cons,
    /// Ground terms for the free variables that meet the given constraints.
    pub sample: Terms,
    /// Why each item of the query holds, in order.
    pub trees: Nodes,
    /// Why no denial is broken and each rule on an odd loop holds.
    pub checks: Checks,
    /// Why a positive and a negated literal of one predicate are apart.
    pub clashes: Clashes,
    /// A level and a sign for each predicate.
    pub map: PredMaps,
}

/// The cases of a clause that is checked beside the query.
#[derive(Drop)]
pub struct Check {
    pub clause: u64,
    pub case: Case,
}

/// A list of checks.
#[derive(Drop)]
pub struct Checks {
    list: Vec<Check>,
}

/// Two lines that the hint shows apart.
#[derive(Drop)]
pub struct Clash {
    pub first: u64,
    pub second: u64,
    pub hint: Hint,
}

/// A list of clashes.
pub type Clashes = Sequence<Clash>;

impl Checks {
    /// No check. It takes no memory.
    pub fn new(alloc: Global) -> Checks
        ensures { checks_of result ≡ [] }
    {
        Checks {
            list: Vec::new(alloc),
        }
    }

    /// How many checks there are.
    pub fn len(&self) -> usize
        ensures { result ≡ length (checks_of self.now) }
    {
        self.list.len()
    }

    /// The checks, in order.
    pub fn as_slice(&self) -> &[Check]
        ensures { map check_of result.now ≡ checks_of self.now }
    {
        self.list.as_slice()
    }

    /// The check at a place from 0, if there is one.
    pub fn get(&self, i: usize) -> Option<&Check>
        ensures { slice_get (checks_of self.now) i ≡ option_map check_of (option_copied result) }
    {
        item_at(self.as_slice(), i)
    }

    /// Puts a check last. An error leaves the list as it was.
    pub fn push(&mut self, check: Check) -> Result<(), Memory>
        ensures ok { OnOk result (checks_of self.new ≡ checks_of self.old ++ check_of check ∷ []) }
        ensures err { OnErr result (checks_of self.new ≡ checks_of self.old) }
    {
        self.list.push(check)?;
        Ok(())
    }
}
