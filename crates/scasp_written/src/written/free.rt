//! Steps that cost nothing.
ghost use Rattle.std.specs.Prelude.{◌≡◌, ◌+◌, ◌∷◌, [], ℕ, List, option_map};
ghost use Rattle.scasp_search_ends.specs.Ends.Ends.{Ends};
ghost use Rattle.scasp_written.specs.Written.Inside.Heights.{height, total};
ghost use Rattle.scasp_search_walk.specs.Walks.{Reached};
ghost use Rattle.scasp_written.specs.Written.Inside.Reached.{Comes, IsLower, Passes, PutsBack};
ghost use Rattle.scasp_written.specs.Written.Inside.Stacks.{states_of};
ghost use Rattle.scasp_written.specs.Written.Rests.{machine, problem_in};
ghost use Rattle.scasp_search_rules.specs.declared.states.state.State.{State as ThisState};
ghost use Rattle.scasp_search_rules.specs.Successors.Search.{answer_at, asked_by};

use crate::written::goal::Goal;
use crate::written::stack::{Waiting, push_free};
use scasp_cert::Cert;
use scasp_search_calls::pays;
use scasp_search_constraints::SearchErr;
use scasp_search_ends::{About, answer_at, close_overflows};
use scasp_search_rules::State;
use std::alloc::Global;

/// What stands ahead.
#[derive(Drop)]
pub(crate) enum Ahead {
    /// An answer, which was taken from the stack.
    Answer(Cert),
    /// A state that costs a call, which is uppermost.
    Pays,
    /// Nothing is left.
    Ended,
}

/// The answer that the state, which has nothing left to do, is; none where two of its literals may be one.
///
/// # Errors
///
/// Overflow where the sample of the answer overflows, or a list that is asked about its literals; want of memory.
pub fn answer(alloc: Global, goal: &Goal, state: &State) -> Result<Option<Cert>, SearchErr>
    ensures { Ends result (answer_at (problem_in goal.now) state.now goal.now.queried []) (asked_by (problem_in goal.now) state.now goal.now.queried []) }
{
    let about = About {
        program: &goal.program,
        query: goal.query,
        map: &goal.map,
    };
    answer_at(alloc, &about, goal.fresh, state, goal.queried)
}

fn ahead_of(found: Option<Cert>) -> Option<Ahead>
    ensures { result ≡ option_map Ahead.Answer found }
{
    match found {
        Some(cert) => Some(Ahead::Answer(cert)),
        None => None,
    }
}

/// What a state with nothing left to do is: an answer, or nothing.
fn finish(alloc: Global, goal: &Goal, state: &State) -> Result<Option<Ahead>, SearchErr>
    ensures { state.now.work ≡ [] → (budget calls : ℕ) (old rest : List ThisState) → Reached (machine (problem_in goal.now) goal.now.queried) budget old calls (state.now ∷ rest) calls
        → Passes (machine (problem_in goal.now) goal.now.queried) budget calls old rest result }
{
    match answer(alloc, goal, state) {
        Ok(found) => Ok(ahead_of(found)),
        Err(error) => Err(error),
    }
}

/// Puts a state that costs a call back where it stood.
fn put_back(waiting: Waiting, stack: &mut Vec<Waiting>) -> Result<Option<Ahead>, SearchErr>
    ensures { PutsBack waiting.state (states_of stack.old.items) (states_of stack.new.items) result }
{
    stack.push(waiting)?;
    Ok(Some(Ahead::Pays))
}

/// Goes on from a state, which was taken from the stack: what stands ahead where it is an answer or costs a call. Overflow
/// where it ends a case with a row that the bindings cannot replace.
fn pass(
    alloc: Global,
    goal: &Goal,
    waiting: Waiting,
    stack: &mut Vec<Waiting>,
) -> Result<Option<Ahead>, SearchErr>
    ensures walk { (budget calls : ℕ) (old : List ThisState) → Reached (machine (problem_in goal.now) goal.now.queried) budget old calls (waiting.state ∷ states_of stack.old.items) calls
        → Passes (machine (problem_in goal.now) goal.now.queried) budget calls old (states_of stack.new.items) result }
    ensures height { IsLower (total stack.old.items + height waiting) (total stack.new.items) result }
{
    if waiting.state.work.is_empty() {
        return finish(alloc, goal, &waiting.state);
    }
    if close_overflows(alloc, &waiting.state)? {
        return Err(SearchErr::Overflow);
    }
    if pays(&waiting.state) {
        return put_back(waiting, stack);
    }
    match push_free(alloc, &goal.program, waiting, stack) {
        Ok(()) => Ok(None),
        Err(error) => Err(error),
    }
}

/// Goes on up to the next answer, the next state that costs a call, or the end. Overflow only where a list that is asked
/// on the way overflows, the sample of an answer, or a replacement in a row.
pub(crate) fn advance(
    alloc: Global,
    goal: &Goal,
    stack: &mut Vec<Waiting>,
) -> Result<Ahead, SearchErr>
    ensures { (budget calls : ℕ) → Comes (machine (problem_in goal.now) goal.now.queried) budget calls (states_of stack.old.items) (states_of stack.new.items) result }
{
    while let Some(waiting) = stack.pop() {
        if let Some(ahead) = pass(alloc, goal, waiting, stack)? {
            return Ok(ahead);
        }
    }
    Ok(Ahead::Ended)
}
