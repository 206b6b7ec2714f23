//! The walk, in slices of calls.
ghost use Rattle.std.specs.Prelude.{◌≡◌, ℕ, ◌≤◌, Some, None, IsSome, IfOk, length};
ghost use Rattle.scasp_search_walk.specs.Inside.{Finishes};
ghost use Rattle.scasp_search_walk.specs.Slices.{Comes, Gives, Keeps, stop_of};

use crate::ahead::{Ahead, arrive};
use crate::events::Advance;
use crate::frontier::Frontier;
use scasp_list::Memory;
use scasp_search_constraints::SearchErr;
use std::alloc::Global;

/// A search between two slices: the states that are still to be gone through, the budget, the calls spent, and why the search has
/// stopped, if it has.
#[derive(Drop)]
pub struct Walk<F> {
    pub front: F,
    pub budget: u64,
    pub calls: u64,
    pub stopped: Option<SearchErr>,
    ghost within: { calls ≤ budget },
}

/// Goes on by at most `slice` calls.
fn go_on<A: Drop, F: Frontier<A>>(
    front: &mut F,
    budget: u64,
    calls: &mut u64,
    slice: u64,
) -> Result<Advance<A>, SearchErr>
    requires { calls.old ≤ budget }
    ensures finishes { Finishes F.value_of (F.machine (F.problem front.old)) budget (F.states front.old) calls.old slice result (F.states front.new) calls.new }
    ensures within { calls.new ≤ budget }
    ensures same { F.problem front.new ≡ F.problem front.old }
{
    let mut spent = 0;
    loop {
        match arrive(front)? {
            Ahead::Answer(answer) => return Ok(Advance::Answer(answer)),
            Ahead::Ended => return Ok(Advance::Ended),
            Ahead::Pays => {
                if *calls == budget {
                    return Ok(Advance::Spent);
                }
                if spent == slice {
                    return Ok(Advance::Paused);
                }
                *calls += 1;
                spent += 1;
                front.step()?;
            }
        }
    }
}

/// What comes where the search has stopped.
fn stopped_by<A: Drop>(error: SearchErr) -> Advance<A>
    ensures stops { stop_of result ≡ Some error }
    ensures overflow { error ≡ SearchErr.Overflow → result ≡ Advance.Overflow }
    ensures memory { error ≡ SearchErr.Memory → result ≡ Advance.Memory }
{
    match error {
        SearchErr::Overflow => Advance::Overflow,
        SearchErr::Memory => Advance::Memory,
    }
}

/// The next event of the search that comes within `slice` calls, or a pause before the call behind them. After `Ended`, `Spent`,
/// `Overflow` and `Memory` the same comes again.
pub fn advance_by<A: Drop, F: Frontier<A>>(walk: &mut Walk<F>, slice: u64) -> Advance<A>
    ensures gives { walk.old.stopped ≡ None → Gives F.value_of (F.machine (F.problem walk.old.front)) walk.old.budget (F.states walk.old.front) walk.old.calls result (F.states walk.new.front) walk.new.calls }
    ensures keeps { walk.old.stopped ≡ None → Keeps (F.machine (F.problem walk.old.front)) walk.old.budget (F.states walk.old.front) walk.old.calls slice result walk.new.calls }
    ensures stops { walk.new.stopped ≡ stop_of result }
    ensures overflow { walk.old.stopped ≡ Some SearchErr.Overflow → result ≡ Advance.Overflow }
    ensures memory { walk.old.stopped ≡ Some SearchErr.Memory → result ≡ Advance.Memory }
    ensures stopped { IsSome walk.old.stopped → walk.new ≡ walk.old }
    ensures budget { walk.new.budget ≡ walk.old.budget }
    ensures same { F.problem walk.new.front ≡ F.problem walk.old.front }
{
    if let Some(error) = walk.stopped {
        return stopped_by(error);
    }
    match go_on(&mut walk.front, walk.budget, &mut walk.calls, slice) {
        Ok(answer) => answer,
        Err(error) => {
            walk.stopped = Some(error);
            stopped_by(error)
        }
    }
}

/// What comes of one slice after the other, an answer for each.
pub fn advance_all<A: Drop, F: Frontier<A>>(
    alloc: Global,
    walk: &mut Walk<F>,
    slices: &[u64],
) -> Result<Vec<Advance<A>>, Memory>
    ensures comes { walk.old.stopped ≡ None → IfOk result (λ answers. Comes F.value_of (F.machine (F.problem walk.old.front)) walk.old.budget (F.states walk.old.front) walk.old.calls 0 slices.now answers.items (F.states walk.new.front) walk.new.calls) }
    ensures count { IfOk result (λ answers. length answers.items ≡ length slices.now) }
    ensures budget { walk.new.budget ≡ walk.old.budget }
    ensures same { F.problem walk.new.front ≡ F.problem walk.old.front }
{
    let mut answers = Vec::new(alloc);
    for slice in slices {
        answers.push(advance_by(walk, *slice))?;
    }
    Ok(answers)
}
