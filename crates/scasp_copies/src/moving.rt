//! How the lines of a subtree are moved.
ghost use Rattle.std.specs.Prelude.{◌≡◌, ◌++◌, ◌+◌, true, false, IfSome, IfNone, decimal};
ghost use Rattle.scasp_copies.specs.Copies as spec;
ghost use Rattle.scasp_copies.specs.View.{move_of};

use crate::words::{last_number, names_line};

/// So many lines, from the number `from` on, stand at the number `to` and behind it. The first of them is at the depth
/// `top`, and comes to stand at the depth `depth`.
#[derive(Clone, Copy, Debug)]
pub struct Moving {
    pub from: usize,
    pub count: usize,
    pub to: usize,
    pub top: usize,
    pub depth: usize,
}

impl Moving {
    /// The number that a line has behind the move, if it is inside.
    #[tactic(auto, using(crate::proofs::MoveLemmas::inside, crate::proofs::MoveLemmas::before, crate::proofs::MoveLemmas::behind, crate::proofs::MoveLemmas::number_inside))]
    fn number_inside(self, number: u128) -> Option<u128>
        ensures some { IfSome result (λ k. spec.is_inside (move_of self) number ≡ true × (k ≡ spec.moved_number (move_of self) number)) }
        ensures none { IfNone result (spec.is_inside (move_of self) number ≡ false) }
    {
        let from = self.from as u128;
        if number < from || number - from >= self.count as u128 {
            return None;
        }
        Some(self.to as u128 + (number - from))
    }

    /// The number with which the words end behind the move, if they name a line inside.
    #[tactic(auto, using(crate::proofs::MoveLemmas::words_move, crate::proofs::MoveLemmas::words_stay, crate::proofs::MoveLemmas::no_name))]
    pub fn number_of(self, words: &[u8]) -> Option<u128>
        ensures some { IfSome result (λ k. spec.moved_words (move_of self) words.now ≡ spec.before_digits words.now ++ decimal k) }
        ensures none { IfNone result (spec.moved_words (move_of self) words.now ≡ words.now) }
    {
        if !names_line(words) {
            return None;
        }
        self.number_inside(last_number(words))
    }
}
