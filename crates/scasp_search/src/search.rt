//! The search as an object.
ghost use Rattle.std.specs.Prelude.{◌≡◌, [], IfOk};
ghost use Rattle.scasp_search_rules.specs.Successors.Search.{start};
ghost use Rattle.scasp_search_trail.specs.States.{now_of, points_of};

use crate::events::Advance;
use scasp_list::Memory;
use scasp_nmr::CheckItems;
use scasp_search_constraints::SearchErr;
use scasp_search_rules::{Kind, Tasks};
use scasp_search_state::Situation;
use scasp_search_suspended::Suspended;
use scasp_search_trail::Trail;
use scasp_search_walk::{Walk, advance_by};
use scasp_syntax::{Program, Query};
use scasp_written::{goal_of, start_of};
use std::alloc::Global;
use std::mem;

/// The search for answers to a query, between two slices.
pub struct Search {
    pub(crate) walk: Walk<Suspended<Trail>>,
}

impl Drop for Search {
    /// Frees the parts. The crates above call this, and need not prove how each part is freed.
    fn drop(self) {
        let Search { walk } = self;
        drop(walk);
    }
}

/// Where the search for answers to the query begins; no state waits.
#[tactic(auto, using(crate::proofs::StartLemmas::starts))]
fn begun(alloc: Global, query: &Query, checks: &CheckItems) -> Result<Trail, Memory>
    ensures now { IfOk result (λ at. now_of at ≡ start query.now checks.now) }
    ensures points { IfOk result (λ at. points_of at ≡ []) }
{
    let mut state = start_of(alloc, query, checks)?;
    let work = mem::replace(&mut state.work, Tasks::new(alloc));
    let mut at = Trail::new(alloc);
    at.make(Kind::Existential, 0, query.names.len() as u64)?;
    at.put_all(work)?;
    Ok(at)
}

impl Search {
    ghost use Rattle.std.specs.Prelude.{◌≡◌, None, Some, IfOk, IfSome, IsSome};
    ghost use Rattle.scasp_search.specs.Rests.{Advances, rest_of, stopped};
    ghost use Rattle.scasp_search_walk.specs.Slices.{stop_of};
    ghost use Rattle.scasp_search_walk.specs.declared.events.Advance.TheVariants as answers;
    ghost use Rattle.scasp_syntax.specs.Programs.{numbered};
    ghost use Rattle.scasp_written.specs.Written.Rests.{IsSameRun, Opens};

    /// The whole run for the query of this number, from 1, within so many calls. `fresh` is the first name that the samples of
    /// answers may use.
    ///
    /// # Errors
    ///
    /// Want of memory.
    pub fn open(
        alloc: Global,
        program: &Program,
        query: u64,
        budget: u64,
        fresh: u64,
    ) -> Result<Search, Memory>
        requires { IsSome (numbered program.now.queries query) }
        ensures run { IfOk result (λ s. IfSome (numbered program.now.queries query) (λ q. Opens program.now query budget fresh q (rest_of s))) }
        ensures goes { IfOk result (λ s. stopped s ≡ None) }
    {
        let Some(asked) = program.query(query) else {
            unreachable!()
        };
        let goal = goal_of(alloc, program, query, asked.names.len() as u64, fresh)?;
        let at = begun(alloc, asked, &goal.checks)?;
        Ok(Search {
            walk: Walk {
                front: Suspended {
                    alloc,
                    goal,
                    at,
                    is_ahead: true,
                },
                budget,
                calls: 0,
                stopped: None,
            },
        })
    }

    /// The next event of the run, where it comes before call number `calls + 1` of this slice. `Paused` exactly where that call
    /// would begin; the search waits then. `Spent` exactly where call number `budget + 1` of the whole search would begin, and it
    /// goes before `Paused`. `Overflow` only where the run allows it. After `Ended`, `Spent`, `Overflow` and `Memory` the same comes
    /// again, but for want of memory.
    pub fn advance(&mut self, calls: u64) -> Advance
        ensures event { stopped self.old ≡ None → Advances (rest_of self.old) calls result (rest_of self.new) }
        ensures same { IsSameRun (rest_of self.old) (rest_of self.new) }
        ensures stops { stopped self.new ≡ stop_of result }
        ensures overflow { stopped self.old ≡ Some SearchErr.Overflow → result ≡ answers.Overflow }
        ensures memory { stopped self.old ≡ Some SearchErr.Memory → result ≡ answers.Memory }
        ensures stays { IsSome (stopped self.old) → self.new ≡ self.old }
    {
        advance_by(&mut self.walk, calls)
    }

    /// How many calls were spent.
    pub fn calls(&self) -> u64
        ensures { result ≡ (rest_of self.now).calls }
    {
        self.walk.calls
    }
}
