//! The stack of states that wait.
ghost use Rattle.std.specs.Prelude.{◌≡◌, ◌++◌, ◌∷◌, ◌+◌, ◌-◌, ◌*◌, ◌^◌, ◌<◌, ◌≤◌, [], ℕ, IfOk, OnOk, false, length, true, Err};
ghost use Rattle.std.specs.List.{list_any};
ghost use Rattle.scasp_hint.specs.Finding.{overflows_in};
ghost use Rattle.scasp_hint.specs.Satisfying.{sat};
ghost use Rattle.scasp_written.specs.Written.Inside.Heights.{IsBelow, height, total, tower};
ghost use Rattle.scasp_written.specs.Written.Inside.Stacks.{states_of};
ghost use Rattle.scasp_search_rules.specs.Successors.Falls.{EachState, size};
ghost use Rattle.scasp_search_rules.specs.Successors.Search.{pays, step};

use crate::steps::{States, successors};
use scasp_list::Memory;
use scasp_search_constraints::SearchErr;
use scasp_search_rules::State;
use scasp_syntax::Program;
use std::alloc::Global;

/// A state that waits, and how many variables and bindings were made on the way to it since the last call.
#[derive(Drop)]
pub(crate) struct Waiting {
    pub state: State,
    pub made: u64,
}

/// How many variables and bindings the state has.
fn size_of(state: &State) -> Result<u64, Memory>
    ensures { IfOk result (λ all. all ≡ size state.now) }
{
    let made = state.made.len() as u64;
    made.checked_add(state.bound.len() as u64).ok_or(Memory)
}

/// How many variables and bindings were made on the way to a state of this size, where `made` were made up to one of the
/// size `before`.
fn made_with(made: u64, before: u64, size: u64) -> Result<u64, Memory>
    ensures value { IfOk result (λ all. all ≡ made + (size - before)) }
    ensures fits { IfOk result (λ all. all < 2 ^ 64) }
{
    made.checked_add(size.saturating_sub(before)).ok_or(Memory)
}

/// Reads how many tasks there are, which tells that they are fewer than 2^64.
fn read_tasks(state: &State)
    ensures { length state.now.work < 2 ^ 64 }
{
    let _count = state.work.len();
}

/// Puts the state on the stack, where `made` variables and bindings were made up to a state that had `before` of them.
#[tactic(auto, using(crate::proofs::WrittenLemmas::StackLemmas::states_push))]
fn push_one(state: State, before: u64, made: u64, stack: &mut Vec<Waiting>) -> Result<(), Memory>
    ensures states { OnOk result (states_of stack.new.items ≡ state ∷ states_of stack.old.items) }
    ensures height { OnOk result ((p : ℕ) → IsBelow before made p state → 2 ^ 64 * total stack.new.items ≤ 2 ^ 64 * total stack.old.items + tower p) }
{
    let size = size_of(&state)?;
    let grown = made_with(made, before, size)?;
    read_tasks(&state);
    stack.push(Waiting { state, made: grown })?;
    Ok(())
}

/// Puts the states on the stack, the first uppermost.
fn push_all(states: States, before: u64, made: u64, stack: &mut Vec<Waiting>) -> Result<(), Memory>
    ensures states { OnOk result (states_of stack.new.items ≡ states ++ states_of stack.old.items) }
    ensures height { OnOk result ((p : ℕ) → EachState (IsBelow before made p) states → 2 ^ 64 * total stack.new.items ≤ 2 ^ 64 * total stack.old.items + length states * tower p) }
{
    let mut rest = states.into_vec();
    while let Some(state) = rest.pop() {
        push_one(state, before, made, stack)?;
    }
    Ok(())
}

/// Reads how many states there are, which tells that they are fewer than 2^64.
fn read_states(states: &States)
    ensures { length states.now < 2 ^ 64 }
{
    let _count = states.len();
}

/// Puts what comes after the state, which costs nothing, on the stack.
pub(crate) fn push_free(
    alloc: Global,
    program: &Program,
    waiting: Waiting,
    stack: &mut Vec<Waiting>,
) -> Result<(), SearchErr>
    requires { pays waiting.state ≡ false }
    ensures states { OnOk result (states_of stack.new.items ≡ (step program.now sat waiting.state).states ++ states_of stack.old.items) }
    ensures height { OnOk result (total stack.new.items < total stack.old.items + height waiting) }
    ensures overflow { result ≡ Err SearchErr.Overflow → list_any overflows_in (step program.now sat waiting.state).asked ≡ true }
{
    let Waiting { state, made } = waiting;
    let before = size_of(&state)?;
    let states = successors(alloc, program, state)?;
    read_states(&states);
    push_all(states, before, made, stack)?;
    Ok(())
}

/// Puts what comes after the state, which costs a call, on the stack.
pub(crate) fn push_paid(
    alloc: Global,
    program: &Program,
    state: State,
    stack: &mut Vec<Waiting>,
) -> Result<(), SearchErr>
    ensures states { OnOk result (states_of stack.new.items ≡ (step program.now sat state).states ++ states_of stack.old.items) }
    ensures overflow { result ≡ Err SearchErr.Overflow → list_any overflows_in (step program.now sat state).asked ≡ true }
{
    let states = successors(alloc, program, state)?;
    push_all(states, u64::MAX, 0, stack)?;
    Ok(())
}
