//! What comes after each state of the written search.
ghost use Rattle.std.specs.Prelude.{◌≡◌, [], IfOk, false};
ghost use Rattle.scasp_hint.specs.Satisfying.{sat};
ghost use Rattle.scasp_search_constraints.specs.Assuming.Taken.{Gives};
ghost use Rattle.scasp_search_rules.specs.Successors.Search.{step};
ghost use Rattle.scasp_search_state.specs.Choices.{states};

use scasp_list::{Memory, Sequence};
use scasp_search_constraints::SearchErr;
use scasp_search_copies::Copied;
use scasp_search_rules::State;
use scasp_search_state::Situation;
use scasp_search_steps::{Foresees, resume, step};
use scasp_syntax::Program;
use std::alloc::Global;

/// States in the order in which they are tried.
pub type States = Sequence<State>;

/// Copies of the states that are still to be gone through: the present one, where it is ahead, and those that wait behind it.
fn all_states<M: Situation>(
    alloc: Global,
    program: &Program,
    at: &mut M,
    is_ahead: bool,
) -> Result<States, Memory>
    requires { is_ahead ≡ false → M.points at.old ≡ [] }
    ensures { IfOk result (λ all. all ≡ states program.now is_ahead (M.now at.old) (M.points at.old)) }
{
    let mut all = States::new(alloc);
    let mut is_left = is_ahead;
    while is_left {
        all.push(at.state(alloc)?)?;
        is_left = resume(alloc, program, at)?;
    }
    Ok(all)
}

/// Copies of the states that come of the present one, behind which none waits.
fn all_after<M: Foresees>(alloc: Global, program: &Program, at: &mut M) -> Result<States, SearchErr>
    requires open { M.foresees ≡ false }
    requires none { M.points at.old ≡ [] }
    ensures { Gives result (step program.now sat (M.now at.old)).states (step program.now sat (M.now at.old)).asked }
{
    match step(alloc, program, at) {
        Ok(went) => Ok(all_states(alloc, program, at, went)?),
        Err(error) => Err(error),
    }
}

/// What comes of a state that is no answer, in the order in which it is tried. Overflow only where a list that the step asks
/// overflows.
pub fn successors(alloc: Global, program: &Program, state: State) -> Result<States, SearchErr>
    ensures { Gives result (step program.now sat state).states (step program.now sat state).asked }
{
    let mut at = Copied::new(alloc, state);
    all_after(alloc, program, &mut at)
}
