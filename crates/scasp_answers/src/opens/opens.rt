//! The lines that are open, one below the other.
ghost use Rattle.std.specs.Prelude.{◌≡◌, ◌∷◌, [], length, OnOk, option_copied};
ghost use Rattle.scasp_answers.specs.Parts.View.{open_of, part_of};
ghost use Rattle.scasp_answers.specs.Opens.View.{opens_of, filled, Innermost, Pops};

use crate::parts::{Open, Part};
use scasp_list::Memory;
use std::alloc::Global;

/// The lines that are open.
#[derive(Drop)]
pub struct Opens {
    list: Vec<Open>,
}

impl Opens {
    /// No line is open.
    pub fn new(alloc: Global) -> Opens
        ensures { opens_of result ≡ [] }
    {
        Opens {
            list: Vec::new(alloc),
        }
    }

    /// How many lines are open.
    pub fn len(&self) -> usize
        ensures { result ≡ length (opens_of self.now) }
    {
        self.list.len()
    }

    /// Opens a line below the others.
    pub fn push(&mut self, line: Open) -> Result<(), Memory>
        ensures { OnOk result (opens_of self.new ≡ open_of line ∷ opens_of self.old) }
    {
        self.list.push(line)?;
        Ok(())
    }

    /// The innermost line.
    pub fn last(&self) -> Option<&Open>
        ensures { Innermost (opens_of self.now) (option_copied result) }
    {
        self.list.last()
    }

    /// Puts the part below the innermost line, if one is open.
    #[tactic(auto, using(crate::proofs::OpensLemmas::OpensLemmas::fills_last))]
    pub(crate) fn put(&mut self, part: Part) -> Result<(), Memory>
        ensures { OnOk result (opens_of self.new ≡ filled (opens_of self.old) (part_of part ∷ [])) }
    {
        match self.list.last_mut() {
            Some(top) => top.put(part),
            None => {
                drop(part);
                Ok(())
            }
        }
    }

    /// Takes the innermost line off.
    pub fn pop(&mut self) -> Option<Open>
        ensures { Pops (opens_of self.old) result (opens_of self.new) }
    {
        self.list.pop()
    }
}
