//! Predicates and their places, found by hashing.
ghost use Rattle.std.specs.Prelude.{◌≡◌, [], length, IfOk, OnOk};
ghost use Rattle.scasp_graph.specs.Inside.Growing.{with_pred};
ghost use Rattle.scasp_graph.specs.Numbering.{place_in};

use indexmap::IndexSet;
use scasp_name::Memory;
use scasp_syntax::{Pred, Preds};
use std::alloc::Global;
use std::marker::Model;

/// Distinct predicates in order, each with its place.
#[derive(Drop)]
pub struct Numbering {
    preds: IndexSet<Pred>,
}

impl Model for Numbering {
    ghost use Rattle.std.specs.Prelude.{List};
    ghost use Rattle.scasp_syntax.specs.declared.atom.Pred.{Pred};

    ghost Value = { List Pred };

    ghost view = { λ n. n.preds.keys };
}

impl Numbering {
    /// No predicates. It takes no memory.
    pub fn new(alloc: Global) -> Numbering
        ensures { result ≡ [] }
    {
        Numbering {
            preds: IndexSet::new(alloc),
        }
    }

    /// The number of predicates.
    pub fn len(&self) -> usize
        ensures { result ≡ length self.now }
    {
        self.preds.len()
    }

    /// The place of the predicate, or the number of predicates.
    pub fn place(&self, pred: &Pred) -> usize
        ensures { result ≡ place_in self.now pred.now }
    {
        match self.preds.get_index_of(pred) {
            Some(place) => place,
            None => self.len(),
        }
    }

    /// Puts the predicate at the end unless it is there.
    pub fn insert(&mut self, pred: &Pred) -> Result<(), Memory>
        ensures { OnOk result (self.new ≡ with_pred self.old pred.now) }
    {
        self.preds.insert(*pred)?;
        Ok(())
    }

    /// The predicates in order.
    pub fn as_slice(&self) -> &[Pred]
        ensures { result.now ≡ self.now }
    {
        self.preds.as_slice()
    }

    /// The list of the predicates.
    pub fn predicates(&self, alloc: Global) -> Result<Preds, Memory>
        ensures { IfOk result (λ preds. preds ≡ self.now) }
    {
        let mut preds = Preds::new(alloc);
        for pred in self.as_slice() {
            preds.push(*pred)?;
        }
        Ok(preds)
    }
}
