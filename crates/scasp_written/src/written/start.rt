//! Where a search begins.
ghost use Rattle.std.specs.Prelude.{◌≡◌, ◌++◌, IfOk, OnOk, map};
ghost use Rattle.scasp_search_rules.specs.Successors.Search.{nothing, start};
ghost use Rattle.scasp_syntax.specs.Flat.{flat_body};

use scasp_list::Memory;
use scasp_nmr::{CheckItem, CheckItems};
use scasp_search_calls::push_shows;
use scasp_search_rules::{Bindings, Covers, Kind, Lines, Literals, State, Task, Tasks, Variables};
use scasp_search_terms::variables::with_new;
use scasp_syntax::{Cons, Query, flat_items};
use std::alloc::Global;

/// Puts a task for each clause that is checked at the end.
fn push_checks(checks: &[CheckItem], tasks: &mut Tasks) -> Result<(), Memory>
    ensures { OnOk result (tasks.new ≡ tasks.old ++ map (λ i. Task.Check i.clause i.head) checks.now) }
{
    for item in checks {
        tasks.push(Task::Check {
            clause: item.clause,
            checks_head: item.head,
        })?;
    }
    Ok(())
}

/// What there is to do: the items of the query, and then the checks.
fn all_work(alloc: Global, query: &Query, checks: &CheckItems) -> Result<Tasks, Memory>
    ensures { IfOk result (λ tasks. tasks ≡ map Task.Show (flat_body query.now.body) ++ map (λ i. Task.Check i.clause i.head) checks.now) }
{
    let items = flat_items(alloc, &query.body)?;
    let mut tasks = Tasks::new(alloc);
    push_shows(items, &mut tasks)?;
    push_checks(checks.as_slice(), &mut tasks)?;
    Ok(tasks)
}

/// The state without variables in which this is to be done.
fn bare(alloc: Global, work: Tasks) -> State
    ensures { result ≡ record nothing { work = work } }
{
    State {
        made: Variables::new(alloc),
        bound: Bindings::new(alloc),
        given: Cons::new(alloc),
        covers: Covers::new(alloc),
        cases: 0,
        literals: Literals::new(alloc),
        lines: Lines::new(alloc),
        work,
    }
}

/// Where the search for answers to the query begins, with the clauses that are checked behind its items.
///
/// # Errors
///
/// Want of memory.
pub fn start_of(alloc: Global, query: &Query, checks: &CheckItems) -> Result<State, Memory>
    ensures { IfOk result (λ state. state ≡ start query.now checks.now) }
{
    let state = bare(alloc, all_work(alloc, query, checks)?);
    with_new(state, Kind::Existential, 0, query.names.len() as u64)
}
