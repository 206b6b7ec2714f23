//! The end of a case, of its cover, or its last remainder.
ghost use Rattle.std.specs.Prelude.{◌≡◌, ◌∷◌, IfOk};
ghost use Rattle.scasp_search_state.specs.Words.{closed, next_case};

use scasp_list::Memory;
use scasp_search_calls::{ended_by, split_first, taken_up};
use scasp_search_rules::{Cover, Covers, Lines, Remainders, State};
use std::alloc::Global;
use std::mem;

/// The state behind the end of the case of the cover, which is on the stack no more.
#[tactic(auto, using(crate::proofs::ClosingLemmas::cover_gone, crate::proofs::ClosingLemmas::remainder_next))]
fn next_case(alloc: Global, state: State, cover: Cover) -> Result<State, Memory>
    ensures { IfOk result (λ made. made ≡ next_case (record state { covers = cover ∷ state.covers }) cover state.covers cover.waiting) }
{
    let mut cover = cover;
    let lines = mem::replace(&mut cover.before, Lines::new(alloc));
    let waiting = mem::replace(&mut cover.waiting, Remainders::new(alloc));
    match split_first(waiting) {
        Some((remainder, waiting)) => taken_up(alloc, state, cover, lines, remainder, waiting),
        None => ended_by(alloc, state, cover.universals.as_slice(), lines, &[]),
    }
}

/// The state behind the end of the case of the innermost cover: its last remainder is its case, or the cover is gone.
#[tactic(auto, using(crate::proofs::ClosingLemmas::none_closed, crate::proofs::ClosingLemmas::first_closed))]
pub(crate) fn closed(alloc: Global, state: State) -> Result<State, Memory>
    ensures { IfOk result (λ made. made ≡ closed state state.covers) }
{
    let mut state = state;
    let covers = mem::replace(&mut state.covers, Covers::new(alloc));
    match split_first(covers) {
        Some((cover, covers)) => {
            state.covers = covers;
            next_case(alloc, state, cover)
        }
        None => Ok(state),
    }
}
