//! Domains: finite lists of distinct ground terms.
ghost use Rattle.std.specs.Prelude.{◌≡◌, false, length, slice_get, IsTrue, IfOk, IfSome, IfNone, OnErr, Some, option_copied, option_map};
ghost use Rattle.scasp_model.specs.Grounding.{is_domain};
ghost use Rattle.scasp_syntax.specs.Tm.{nil, items};
ghost use Rattle.scasp_syntax.specs.View.{tm_of};
ghost use Rattle.scasp_tables.specs.Pushing.{PushedBy};
ghost use Rattle.scasp_tables.specs.Tables.{is_member};

use crate::key_table::KeyTable;
use crate::keys::term_key;
use crate::pushed::Pushed;
use scasp_list::Memory;
use scasp_syntax::{Term, Terms, is_ground};
use std::alloc::Global;
use std::hash::RandomState;
use std::marker::Model;

/// A finite list of distinct ground terms, which clauses take for their variables.
#[derive(Drop)]
pub struct Domain {
    terms: Terms,
    keys: KeyTable,
    random: RandomState,
}

impl Model for Domain {
    ghost use Rattle.std.specs.Prelude.{◌≡◌, IsTrue, map};
    ghost use Rattle.scasp_model.specs.Grounding.{is_domain};
    ghost use Rattle.scasp_syntax.specs.Tm.{Tms, items};
    ghost use Rattle.scasp_syntax.specs.TmCode.{coded_tms};
    ghost use Rattle.scasp_tables.specs.Inside.Keys.{key_of};

    ghost Value = { Tms };

    ghost coded = { coded_tms };

    ghost view = { λ d. d.terms };

    ghost invariant = { λ d. (d.keys ≡ map key_of (items d.terms)) × IsTrue (is_domain (items d.terms)) };
}

impl Domain {
    /// The empty domain, whose members will be hashed by the keys. It takes no memory.
    pub fn new(alloc: Global, random: RandomState) -> Domain
        ensures { result ≡ nil }
    {
        Domain {
            terms: Terms::new(alloc),
            keys: KeyTable::new(alloc, random),
            random,
        }
    }

    /// The keys by which the members are hashed, for other tables over terms of the domain.
    pub fn hash_keys(&self) -> RandomState {
        self.random
    }

    /// The number of members.
    pub fn len(&self) -> usize
        ensures { result ≡ length (items self.now) }
    {
        self.terms.len()
    }

    /// The member at the place, counted from 0.
    pub fn get(&self, place: usize) -> Option<&Term>
        ensures { option_map tm_of (option_copied result) ≡ slice_get (items self.now) place }
    {
        self.terms.get(place)
    }

    /// The members in order.
    pub fn terms(&self) -> &Terms
        ensures value { result.now ≡ self.now }
        ensures domain { IsTrue (is_domain (items self.now)) }
    {
        &self.terms
    }

    /// The place of the term, where it is a member. It takes memory for its key.
    pub fn find(&self, alloc: Global, term: &Term) -> Result<Option<usize>, Memory>
        ensures found { IfOk result (λ place. IfSome place (λ n. slice_get (items self.now) n ≡ Some (tm_of term.now))) }
        ensures absent { IfOk result (λ place. IfNone place (is_member (items self.now) (tm_of term.now) ≡ false)) }
    {
        let key = term_key(alloc, term)?;
        match self.keys.find(key.as_slice()) {
            Some(place) => Ok(Some(place)),
            None => Ok(None),
        }
    }

    /// Makes the term the last member, where it is ground and no member yet; else, and after an error, the domain is as it was.
    pub fn push(&mut self, alloc: Global, term: Term) -> Result<Pushed, Memory>
        ensures told { IfOk result (λ pushed. PushedBy (items self.old) (tm_of term) pushed (items self.new)) }
        ensures err { OnErr result (self.new ≡ self.old) }
    {
        if !is_ground(alloc, &term)? {
            return Ok(Pushed::NotGround);
        }
        let key = term_key(alloc, &term)?;
        if self.keys.contains(key.as_slice()) {
            return Ok(Pushed::Repeated);
        }
        self.keys.push(key)?;
        match self.terms.push(term) {
            Ok(()) => Ok(Pushed::Added),
            Err(error) => {
                self.keys.pop();
                Err(error)
            }
        }
    }
}
