//! Walks over terms of any depth.
ghost use Rattle.std.specs.Prelude.{◌≡◌, MatchOption};
ghost use Rattle.scasp_syntax.specs.Tm.{nil, cons};
ghost use Rattle.scasp_syntax.specs.View.{tm_of, tms_of};
ghost use Rattle.scasp_syntax.specs.Walks.{onto, waiting};

use crate::term::{Term, Terms};
use scasp_name::Memory;
use std::alloc::Global;
use std::marker::Model;

/// The terms that are left of a walk, the next one first. Contracts see it as a list of terms.
#[derive(Drop)]
pub struct Walk<'a> {
    here: &'a [Term],
    later: Vec<&'a [Term]>,
}

impl<'a> Model for Walk<'a> {
    ghost use Rattle.scasp_syntax.specs.Tm.{Tms};
    ghost use Rattle.scasp_syntax.specs.TmCode.{coded_tms};
    ghost use Rattle.scasp_syntax.specs.View.{tms_of};
    ghost use Rattle.scasp_syntax.specs.Walks.{onto, waiting};

    ghost Value = { Tms };

    ghost coded = { coded_tms };

    ghost view = { λ w. onto (tms_of w.here.now) (waiting w.later.items) };
}

/// The first of the terms here, or else of those that wait, and what is left of its list; the lists before it are taken away.
#[tactic(auto, using(crate::proofs::WalkLemmas::next_list, crate::proofs::WalkLemmas::first_there, crate::proofs::WalkLemmas::none_there))]
fn first_left<'a>(here: &'a [Term], later: &mut Vec<&'a [Term]>) -> Option<(&'a Term, &'a [Term])>
    ensures { MatchOption result (onto (tms_of here.now) (waiting later.old.items) ≡ nil)
        (λ found. onto (tms_of here.now) (waiting later.old.items) ≡ cons (tm_of found.0.now) (onto (tms_of found.1.now) (waiting later.new.items))) }
{
    let mut list = here;
    'lists: loop {
        match list.split_first() {
            Some((term, left)) => return Some((term, left)),
            None => match later.pop() {
                Some(next) => {
                    list = next;
                }
                None => return None,
            },
        }
    }
}

impl<'a> Walk<'a> {
    ghost use Rattle.std.specs.Prelude.{OnOk};

    /// A walk over these terms, which takes no memory.
    pub fn over(alloc: Global, terms: &'a [Term]) -> Walk<'a>
        ensures { result ≡ tms_of terms.now }
    {
        Walk {
            here: terms,
            later: Vec::new(alloc),
        }
    }

    /// Takes the next term, without its arguments.
    pub fn next(&mut self) -> Option<&'a Term>
        ensures { MatchOption result (self.old ≡ nil) (λ term. self.old ≡ cons (tm_of term.now) self.new) }
    {
        match first_left(self.here, &mut self.later) {
            Some((term, left)) => {
                self.here = left;
                Some(term)
            }
            None => None,
        }
    }

    /// Goes on with these terms, and behind them with those that were left. It takes memory for what waits, and no machine stack.
    pub fn enter(&mut self, terms: &'a Terms) -> Result<(), Memory>
        ensures { OnOk result (self.new ≡ onto terms.now self.old) }
    {
        if !self.here.is_empty() {
            self.later.push(self.here)?;
        }
        self.here = terms.as_slice();
        Ok(())
    }
}
