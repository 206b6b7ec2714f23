//! What the present state is.
ghost use Rattle.std.specs.Prelude.{◌≡◌, ◌∷◌, [], List, MatchOption, true};
ghost use Rattle.scasp_cert.specs.Certificate.{certificate_of};
ghost use Rattle.scasp_search_rules.specs.declared.states.state.State.{State as ThisState};
ghost use Rattle.scasp_search_state.specs.Choices.{Point, states};
ghost use Rattle.scasp_search_walk.specs.Slices.{Sees};
ghost use Rattle.scasp_written.specs.Written.Rests.{machine, problem_in};

use scasp_cert::Cert;
use scasp_search_constraints::SearchErr;
use scasp_search_rules::State;
use scasp_search_state::Situation;
use scasp_search_walk::Look;
use scasp_written::{Goal, answer};
use std::alloc::Global;

fn look_of(found: Option<Cert>) -> Look<Cert>
    ensures { MatchOption found (result ≡ Look.Nothing) (λ cert. result ≡ Look.Answer cert) }
{
    match found {
        Some(cert) => Look::Answer(cert),
        None => Look::Nothing,
    }
}

/// What a state with nothing left to do is: an answer, or nothing.
fn finished(alloc: Global, goal: &Goal, state: &State) -> Result<Look<Cert>, SearchErr>
    ensures { state.now.work ≡ [] → (rest : List ThisState) → Sees certificate_of (machine (problem_in goal.now) goal.now.queried) (state.now ∷ rest) rest result }
{
    match answer(alloc, goal, state) {
        Ok(found) => Ok(look_of(found)),
        Err(error) => Err(error),
    }
}

/// What the present state is with nothing left to do.
fn ended<M: Situation>(alloc: Global, goal: &Goal, at: &M) -> Result<Look<Cert>, SearchErr>
    ensures { (M.now at.now).work ≡ [] → (rest : List ThisState) → Sees certificate_of (machine (problem_in goal.now) goal.now.queried) (M.now at.now ∷ rest) rest result }
{
    match at.state(alloc) {
        Ok(state) => finished(alloc, goal, &state),
        Err(_) => Err(SearchErr::Memory),
    }
}

/// What the present state is, which is ahead, and whether it still is: a state with nothing left to do is done. Overflow where
/// the state ends a case with a row that the bindings cannot replace.
pub(crate) fn look_at<M: Situation>(
    alloc: Global,
    goal: &Goal,
    at: &M,
    is_ahead: &mut bool,
) -> Result<Look<Cert>, SearchErr>
    ensures { (points : List Point) → Sees certificate_of (machine (problem_in goal.now) goal.now.queried) (states goal.now.program true (M.now at.now) points) (states goal.now.program is_ahead.new (M.now at.now) points) result }
{
    *is_ahead = at.has_work();
    if !*is_ahead {
        return ended(alloc, goal, at);
    }
    match at.close_overflows(alloc) {
        Ok(true) => Err(SearchErr::Overflow),
        Ok(false) => {
            if at.pays() {
                Ok(Look::Pays)
            } else {
                Ok(Look::Free)
            }
        }
        Err(_) => Err(SearchErr::Memory),
    }
}
