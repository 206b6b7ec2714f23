//! The numbered lines of a block.
ghost use Rattle.std.specs.Prelude.{◌≡◌, ◌∷◌, [], ◌++◌, OnOk};
ghost use Rattle.std.specs.Option.{option_map};
ghost use Rattle.scasp_copies.specs.Copies.{copy_of};
ghost use Rattle.scasp_copies.specs.View.{line_piece, stands_for};

use crate::line::BlockLine;
use crate::subtree::{Subtree, subtree_at};
use scasp_list::Memory;
use std::alloc::Global;
use std::marker::Model;

/// The numbered lines of a block so far, copies written out; the first has number 1.
#[derive(Drop)]
pub struct Told<'a> {
    lines: Vec<BlockLine<'a>>,
}

impl<'a> Model for Told<'a> {
    ghost use Rattle.std.specs.Prelude.{List};
    ghost use Rattle.scasp_copies.specs.Pieces.{Piece};
    ghost use Rattle.scasp_copies.specs.View.{pieces_of};

    ghost Value = { List Piece };

    ghost view = { λ t. pieces_of t.lines.items };
}

impl<'a> Told<'a> {
    /// No line.
    pub fn new(alloc: Global) -> Told<'a>
        ensures { result ≡ [] }
    {
        Told {
            lines: Vec::new(alloc),
        }
    }

    /// Forgets all lines.
    pub fn clear(&mut self)
        ensures { self.new ≡ [] }
    {
        self.lines.clear();
    }

    /// Puts a line behind the others.
    pub fn push(&mut self, line: BlockLine<'a>) -> Result<(), Memory>
        ensures { OnOk result (self.new ≡ self.old ++ line_piece line.entry ∷ []) }
    {
        self.lines.push(line)?;
        Ok(())
    }

    /// What a line `copy number` stands for as deep as `depth` behind these lines, if it stands for any.
    #[tactic(auto, using(crate::proofs::SubtreeLemmas::no_copy))]
    pub fn copy_of<'t>(&'t self, number: usize, depth: usize) -> Option<Subtree<'t, 'a>>
        ensures { option_map stands_for result ≡ copy_of number depth self.now }
    {
        if number == 0 || number > self.lines.len() {
            return None;
        }
        let lines = &self.lines[number - 1..];
        subtree_at(lines, number, depth, self.lines.len() + 1)
    }
}
