//! Many slices.
ghost use Rattle.std.specs.Prelude.{◌≡◌, ◌<◌, None, Some, IfOk, IsErr, IsOkAnd, OnErr, length};
ghost use Rattle.scasp_search.specs.Rests.{AdvancesAll, rest_of, stopped};
ghost use Rattle.scasp_written.specs.Written.Rests.{Gives, IsSameRun, stop_of};

use crate::events::Advance;
use crate::search::Search;
use scasp_list::Memory;
use scasp_search_constraints::SearchErr;
use scasp_search_walk::advance_all as walk_all;
use scasp_written::Event;
use std::alloc::Global;

/// What comes of one slice after the other, an answer for each. Without the pauses they are the events of the run, in order.
///
/// # Errors
///
/// Want of memory for the list of the answers.
pub fn advance_all(
    alloc: Global,
    search: &mut Search,
    slices: &[u64],
) -> Result<Vec<Advance>, Memory>
    ensures comes { stopped search.old ≡ None → IfOk result (λ answers. AdvancesAll (rest_of search.old) slices.now answers.items (rest_of search.new)) }
    ensures count { IfOk result (λ answers. length answers.items ≡ length slices.now) }
    ensures same { IsSameRun (rest_of search.old) (rest_of search.new) }
{
    walk_all(alloc, &mut search.walk, slices)
}

/// The next event of the run, in slices of so many calls. After `Ended`, `Spent` and `Overflow` the same event comes again, and
/// after an error the error.
///
/// # Errors
///
/// Want of memory.
pub fn next_event(search: &mut Search, slice: u64) -> Result<Event, Memory>
    requires { 0 < slice }
    ensures event { stopped search.old ≡ None → IfOk result (λ e. Gives (rest_of search.old) e (rest_of search.new)) }
    ensures same { IsSameRun (rest_of search.old) (rest_of search.new) }
    ensures stops { IfOk result (λ e. stopped search.new ≡ stop_of e) }
    ensures fails { OnErr result (stopped search.new ≡ Some SearchErr.Memory) }
    ensures overflow { stopped search.old ≡ Some SearchErr.Overflow → IsOkAnd result (λ e. e ≡ Event.Overflow) }
    ensures memory { stopped search.old ≡ Some SearchErr.Memory → IsErr result }
{
    loop {
        match search.advance(slice) {
            Advance::Answer(cert) => return Ok(Event::Answer(cert)),
            Advance::Paused => {}
            Advance::Ended => return Ok(Event::Ended),
            Advance::Spent => return Ok(Event::Spent),
            Advance::Overflow => return Ok(Event::Overflow),
            Advance::Memory => return Err(Memory),
        }
    }
}
