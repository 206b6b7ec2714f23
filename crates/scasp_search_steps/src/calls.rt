//! Calls of literals.
ghost use Rattle.std.specs.Prelude.{[], filter};
ghost use Rattle.scasp_hint.specs.Satisfying.{sat};
ghost use Rattle.scasp_search_rules.specs.Successors.Calls.{call, can_be_seen, unrepeated};
ghost use Rattle.scasp_search_steps.specs.Foresight.{ForksIf};

use crate::entering::entered;
use crate::foresight::Foresees;
use crate::loops::{looped, see_again};
use scasp_search_assuming::assume_all;
use scasp_search_constraints::SearchErr;
use scasp_syntax::{Lit, Program};
use std::alloc::Global;

/// What comes of a call that repeats no literal, above it or seen again.
#[tactic(auto, using(crate::proofs::CallLemmas::new_overflows, crate::proofs::CallLemmas::new_none, crate::proofs::CallLemmas::new_forked, crate::proofs::ForkLemmas::leaves_forked))]
fn new_call<M: Foresees>(
    alloc: Global,
    program: &Program,
    at: &mut M,
    lit: &Lit,
) -> Result<bool, SearchErr>
    ensures { ForksIf M.foresees program.now (unrepeated program.now sat (M.now at.old) lit.now []) (M.now at.new) (M.points at.new) (M.points at.old) result }
{
    let apart = at.unclear_opposites(alloc, lit)?;
    match assume_all(alloc, at, apart.as_slice()) {
        Err(SearchErr::Overflow) => Err(SearchErr::Overflow),
        Err(SearchErr::Memory) => Err(SearchErr::Memory),
        Ok(false) => Ok(false),
        Ok(true) => {
            if entered(alloc, program, at, lit)? {
                Ok(true)
            } else {
                Ok(false)
            }
        }
    }
}

/// What comes of a call that repeats no literal above it.
#[tactic(auto, using(crate::proofs::ForkLemmas::leaves_forked))]
fn unrepeated<M: Foresees>(
    alloc: Global,
    program: &Program,
    at: &mut M,
    lit: &Lit,
) -> Result<bool, SearchErr>
    ensures { ForksIf M.foresees program.now (unrepeated program.now sat (M.now at.old) lit.now (filter (can_be_seen (M.now at.old) lit.now) (M.now at.old).literals)) (M.now at.new) (M.points at.new) (M.points at.old) result }
{
    match at.seen(alloc, lit)? {
        Some(literal) => {
            see_again(alloc, at, lit, literal)?;
            Ok(true)
        }
        None => new_call(alloc, program, at, lit),
    }
}

/// Whether a state comes of a call of the literal; the first is the present one, and the others wait. Where they may, states in
/// front that come to nothing are left out.
#[tactic(auto, using(crate::proofs::ForkLemmas::leaves_forked))]
pub fn call<M: Foresees>(
    alloc: Global,
    program: &Program,
    at: &mut M,
    lit: &Lit,
) -> Result<bool, SearchErr>
    ensures { ForksIf M.foresees program.now (call program.now sat (M.now at.old) lit.now) (M.now at.new) (M.points at.new) (M.points at.old) result }
{
    match at.nearest(alloc, lit)? {
        Some(repeated) => {
            if looped(alloc, at, lit, repeated)? {
                Ok(true)
            } else {
                Ok(false)
            }
        }
        None => unrepeated(alloc, program, at, lit),
    }
}
