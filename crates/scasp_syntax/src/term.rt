//! Terms.
ghost use Rattle.std.specs.Prelude.{◌≡◌, [], ◌∷◌, ◌++◌, length, slice_get, IfOk, OnOk, OnErr, option_copied, option_map};

use scasp_name::{Memory, NameId};
use scasp_num::Rat;
use std::alloc::Global;
use std::marker::Model;
use std::mem;

/// A variable by its number, a rational number, or a name with its arguments.
#[cycle(term)]
#[derive(Debug, Drop)]
pub enum Term {
    Var(u64),
    Num(Rat),
    App(NameId, Terms),
}

/// A list of terms. Contracts see it as a `Tms`, whose list is `items`.
#[cycle(term)]
#[derive(Debug)]
pub struct Terms {
    list: Vec<Term>,
}

impl Model for Terms {
    ghost use Rattle.scasp_syntax.specs.Tm.{Tms, weight_s};
    ghost use Rattle.scasp_syntax.specs.TmCode.{coded_tms};

    ghost Value = { Tms };

    ghost coded = { coded_tms };

    ghost use Rattle.scasp_syntax.specs.View.{tms_of};

    ghost view = { λ a. tms_of a.list.items };

    ghost size = { weight_s };

    ghost use Rattle.scasp_syntax.specs.Falls.{falls};

    ghost size_decreases = { λ a h. falls a.list.items };
}

impl Drop for Terms {
    /// Frees terms of any depth with no memory and no machine stack. A term in hand is left for its last argument: the arguments
    /// beside that are freed next, and the first of them is a term with all that is left elsewhere as its arguments.
    #[cycle(term)]
    fn drop(self) {
        let Terms { list } = self;
        let mut rest = list;
        while let Some(term) = rest.pop() {
            let mut hand = term;
            while let Term::App(name, args) = hand {
                let mut below = args.into_list();
                let Some(last) = below.pop() else { break };
                let aside = mem::replace(&mut rest, below);
                if aside.is_empty() {
                    drop(aside);
                } else {
                    let _ = rest.insert(0, Term::App(name, Terms { list: aside }));
                }
                hand = last;
            }
        }
    }
}

impl Terms {
    ghost use Rattle.scasp_syntax.specs.Tm.{nil, items, pushed, weight, weight_s};
    ghost use Rattle.scasp_syntax.specs.View.{tm_of, tms_of};
    ghost use Rattle.std.specs.Prelude.{map, All, ◌≤◌};

    /// The empty list, which takes no memory.
    pub fn new(alloc: Global) -> Terms
        ensures { result ≡ nil }
    {
        Terms {
            list: Vec::new(alloc),
        }
    }

    /// The empty list, with room for so many terms.
    pub fn with_room(alloc: Global, count: usize) -> Result<Terms, Memory>
        ensures { IfOk result (λ made. made ≡ nil) }
    {
        Ok(Terms {
            list: Vec::with_capacity(alloc, count)?,
        })
    }

    /// The number of terms.
    pub fn len(&self) -> usize
        ensures { result ≡ length (items self.now) }
    {
        self.list.as_slice().len()
    }

    /// The term at the place, counted from 0.
    pub fn get(&self, place: usize) -> Option<&Term>
        ensures { option_map tm_of (option_copied result) ≡ slice_get (items self.now) place }
    {
        self.list.get(place)
    }

    /// All terms.
    pub fn as_slice(&self) -> &[Term]
        ensures value { tms_of result.now ≡ self.now }
        ensures terms { map tm_of result.now ≡ items self.now }
        ensures lighter { All (λ t. weight (tm_of t) ≤ weight_s self.now) result.now }
    {
        self.list.as_slice()
    }

    /// Puts a term at the end; after an error the list is unchanged.
    pub fn push(&mut self, item: Term) -> Result<(), Memory>
        ensures value { OnOk result (self.new ≡ pushed self.old (tm_of item)) }
        ensures ok { OnOk result (items self.new ≡ items self.old ++ tm_of item ∷ []) }
        ensures err { OnErr result (self.new ≡ self.old) }
    {
        self.list.push(item)?;
        Ok(())
    }

    /// The terms as a `Vec`, which takes no memory.
    fn into_list(self) -> Vec<Term>
        ensures { tms_of result.items ≡ self }
    {
        let Terms { list } = self;
        list
    }
}
