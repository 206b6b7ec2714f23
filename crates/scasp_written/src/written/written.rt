//! The search as an object that gives one event after the other.
ghost use Rattle.std.specs.Prelude.{◌≡◌, ◌≤◌, IfOk, IsErr, Ok};
ghost use Rattle.scasp_written.specs.Written.Analysed.{IsGoalOf};

use crate::written::goal::Goal;
use crate::written::stack::Waiting;
use crate::written::start::start_of;
use crate::written::walk::first_event;
use scasp_cert::Cert;
use scasp_graph::analyse;
use scasp_list::Memory;
use scasp_nmr::checks;
use scasp_search_constraints::SearchErr;
use scasp_syntax::{DeepCopy, Program, Query};
use std::alloc::Global;

/// What a search meets.
#[derive(Drop)]
pub enum Event {
    /// An answer to the query.
    Answer(Cert),
    /// There is no further answer.
    Ended,
    /// The next cost would pass the budget.
    Spent,
    /// A list of constraints, a row whose variables are replaced, or a sample, whose arithmetic passes 128 bits.
    Overflow,
}

/// The search for answers to a query, between two events.
pub struct Written {
    alloc: Global,
    goal: Goal,
    budget: u64,
    calls: u64,
    waiting: Vec<Waiting>,
    stopped: Option<SearchErr>,
    ghost within: { calls ≤ budget },
}

impl Drop for Written {
    /// Frees the parts. The crates above call this, and need not prove how each part is freed.
    fn drop(self) {
        let Written {
            alloc: _,
            goal,
            budget: _,
            calls: _,
            waiting,
            stopped: _,
        } = self;
        drop(goal);
        drop(waiting);
    }
}

/// The program with its checks and its map, for the query of this number, which has so many variables. `fresh` is the first name
/// that the samples of answers may use.
///
/// # Errors
///
/// Want of memory.
pub fn goal_of(
    alloc: Global,
    program: &Program,
    query: u64,
    queried: u64,
    fresh: u64,
) -> Result<Goal, Memory>
    ensures { IfOk result (λ goal. IsGoalOf program.now query queried fresh goal) }
{
    let analysis = analyse(alloc, program)?;
    let checks = checks(alloc, program, &analysis)?;
    Ok(Goal {
        program: program.copy(alloc)?,
        query,
        queried,
        checks,
        map: analysis.map,
        fresh,
    })
}

impl Written {
    ghost use Rattle.std.specs.Prelude.{◌≡◌, ◌≤◌, ◌<◌, ◌^◌, ◌∷◌, [], None, Some, IfOk, IfSome, OnOk, OnErr, IsErr, IsSome, IsOkAnd};
    ghost use Rattle.scasp_written.specs.Written.Rests.{Gives, IsSameRun, Opens, rest_of, stop_of, stopped};
    ghost use Rattle.scasp_syntax.specs.Programs.{numbered};

    /// The whole run for the query of this number, from 1, within so many calls. `fresh` is the first name that the samples of
    /// answers may use.
    pub fn open(
        alloc: Global,
        program: &Program,
        query: u64,
        budget: u64,
        fresh: u64,
    ) -> Result<Written, Memory>
        requires { IsSome (numbered program.now.queries query) }
        ensures run { IfOk result (λ w. IfSome (numbered program.now.queries query) (λ q. Opens program.now query budget fresh q (rest_of w))) }
        ensures goes { IfOk result (λ w. stopped w ≡ None) }
    {
        let Some(asked) = program.query(query) else {
            unreachable!()
        };
        let goal = goal_of(alloc, program, query, asked.names.len() as u64, fresh)?;
        let state = start_of(alloc, asked, &goal.checks)?;
        let mut waiting = Vec::new(alloc);
        waiting.push(Waiting { state, made: 0 })?;
        Ok(Written {
            alloc,
            goal,
            budget,
            calls: 0,
            waiting,
            stopped: None,
        })
    }

    /// The next event of the run. After `Ended`, `Spent` and `Overflow` the same event comes again, and after an error the error.
    pub fn next(&mut self) -> Result<Event, Memory>
        ensures event { stopped self.old ≡ None → IfOk result (λ e. Gives (rest_of self.old) e (rest_of self.new)) }
        ensures same { IsSameRun (rest_of self.old) (rest_of self.new) }
        ensures stops { IfOk result (λ e. stopped self.new ≡ stop_of e) }
        ensures fails { OnErr result (stopped self.new ≡ Some SearchErr.Memory) }
        ensures overflow { stopped self.old ≡ Some SearchErr.Overflow → IsOkAnd result (λ e. e ≡ Event.Overflow) }
        ensures memory { stopped self.old ≡ Some SearchErr.Memory → IsErr result }
    {
        if let Some(error) = self.stopped {
            return stopped_by(error);
        }
        match first_event(
            self.alloc,
            &self.goal,
            self.budget,
            &mut self.calls,
            &mut self.waiting,
        ) {
            Ok(event) => Ok(event),
            Err(error) => {
                self.stopped = Some(error);
                stopped_by(error)
            }
        }
    }

    /// How many calls the events so far have cost.
    pub fn calls(&self) -> u64
        ensures { result ≡ (rest_of self.now).calls }
    {
        self.calls
    }
}

/// What comes where the search has stopped.
fn stopped_by(error: SearchErr) -> Result<Event, Memory>
    ensures overflow { error ≡ SearchErr.Overflow → result ≡ Ok Event.Overflow }
    ensures memory { error ≡ SearchErr.Memory → IsErr result }
{
    match error {
        SearchErr::Overflow => Ok(Event::Overflow),
        SearchErr::Memory => Err(Memory),
    }
}
