//! The walk through the states.
ghost use Rattle.std.specs.Prelude.{◌≤◌};
ghost use Rattle.scasp_written.specs.Written.Inside.Goals.{Finishes, Paid};
ghost use Rattle.scasp_written.specs.Written.Inside.Stacks.{states_of};
ghost use Rattle.scasp_written.specs.Written.Rests.{machine, problem_in};

use crate::written::free::{Ahead, advance};
use crate::written::goal::Goal;
use crate::written::stack::{Waiting, push_paid};
use crate::written::written::Event;
use scasp_search_constraints::SearchErr;
use std::alloc::Global;

/// The first event of the walk from these states, of which the last is the next one. It leaves the states behind it.
/// Overflow only where the walk allows it.
pub(crate) fn first_event(
    alloc: Global,
    goal: &Goal,
    budget: u64,
    calls: &mut u64,
    stack: &mut Vec<Waiting>,
) -> Result<Event, SearchErr>
    requires { calls.old ≤ budget }
    ensures event { Finishes (machine (problem_in goal.now) goal.now.queried) budget calls.old (states_of stack.old.items) calls.new (states_of stack.new.items) result }
    ensures within { calls.new ≤ budget }
{
    loop {
        match advance(alloc, goal, stack)? {
            Ahead::Answer(cert) => return Ok(Event::Answer(cert)),
            Ahead::Ended => return Ok(Event::Ended),
            Ahead::Pays => {
                if *calls == budget {
                    return Ok(Event::Spent);
                }
                *calls += 1;
                pay(alloc, goal, stack)?;
            }
        }
    }
}

/// Goes on from the uppermost state, which costs a call.
fn pay(alloc: Global, goal: &Goal, stack: &mut Vec<Waiting>) -> Result<(), SearchErr>
    ensures { Paid (machine (problem_in goal.now) goal.now.queried) (states_of stack.old.items) (states_of stack.new.items) result }
{
    match stack.pop() {
        Some(waiting) => push_paid(alloc, &goal.program, waiting.state, stack),
        None => Ok(()),
    }
}
