//! Going back to the choices that wait.
ghost use Rattle.std.specs.Prelude.{◌≡◌, [], IfOk, false};
ghost use Rattle.scasp_search_state.specs.Choices.{Forked, left, states, waiting};
ghost use Rattle.scasp_search_steps.specs.Foresight.{SkipsIf};

use crate::entering::try_rules;
use crate::foresight::{Foresees, without_clashes};
use crate::leaves::try_leaves;
use scasp_list::Memory;
use scasp_search_state::{Choice, Situation};
use scasp_syntax::Program;
use std::alloc::Global;

/// Whether the choice leaves a state; the first that it leaves is the present one, and the others wait.
fn try_choice<M: Situation>(
    alloc: Global,
    program: &Program,
    at: &mut M,
    choice: Choice,
) -> Result<bool, Memory>
    ensures { IfOk result (λ went. Forked program.now (left program.now choice (M.now at.old)) (M.now at.new) (M.points at.new) (M.points at.old) went) }
{
    match choice {
        Choice::ByRules { lit, behind } => try_rules(alloc, program, at, &lit, behind),
        Choice::Cases(from) => try_leaves(alloc, program, at, from),
        Choice::Other(tasks) => {
            at.put_all(tasks)?;
            Ok(true)
        }
    }
}

/// Whether a state waits; the first that does is the present one then. Together with it the states that are still to be gone
/// through are those that waited.
#[tactic(auto, using(crate::proofs::StepLemmas::point_taken, crate::proofs::StepLemmas::one_fewer, crate::proofs::StepLemmas::none_taken, crate::proofs::StepLemmas::none_left))]
pub fn resume<M: Situation>(alloc: Global, program: &Program, at: &mut M) -> Result<bool, Memory>
    ensures same { IfOk result (λ went. states program.now went (M.now at.new) (M.points at.new) ≡ waiting program.now (M.points at.old)) }
    ensures ended { IfOk result (λ went. went ≡ false → M.points at.new ≡ []) }
{
    while let Some(choice) = at.take()? {
        if try_choice(alloc, program, at, choice)? {
            return Ok(true);
        }
    }
    Ok(false)
}

/// As `resume`, but states in front that come to nothing may be left out.
#[tactic(auto, using(crate::proofs::SkipLemmas::choice_skipped, crate::proofs::StepLemmas::one_fewer, crate::proofs::SkipLemmas::all_skipped, crate::proofs::StepLemmas::none_left))]
pub fn resume_ahead<M: Foresees>(
    alloc: Global,
    program: &Program,
    at: &mut M,
) -> Result<bool, Memory>
    ensures skips { IfOk result (λ went. SkipsIf M.foresees program.now (waiting program.now (M.points at.old)) (states program.now went (M.now at.new) (M.points at.new))) }
    ensures ended { IfOk result (λ went. went ≡ false → M.points at.new ≡ []) }
{
    while let Some(choice) = at.take()? {
        let choice = without_clashes(alloc, program, at, choice)?;
        if try_choice(alloc, program, at, choice)? {
            return Ok(true);
        }
    }
    Ok(false)
}
