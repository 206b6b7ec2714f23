//! What the search for answers to a program's first query comes to first.
ghost use Rattle.std.specs.Prelude.{◌≡◌, None, IfOk, IsSome};
ghost use Rattle.scasp_cert.specs.Certificate.{certificate_of};
ghost use Rattle.scasp_cert.specs.Flat.{is_flat};
ghost use Rattle.scasp_cert.specs.Lines.{all_lines};
ghost use Rattle.scasp_command_run.specs.Inside.Events.{IsAbout, IsGoing};
ghost use Rattle.scasp_command_run.specs.Queries.{Meets};
ghost use Rattle.scasp_search.specs.Rests.{rest_of, stopped};
ghost use Rattle.scasp_written.specs.Written.Rests.{Rest};
ghost use Rattle.scasp_search_rules.specs.Successors.Machine.{answered};
ghost use Rattle.scasp_syntax.specs.Programs.{numbered};
ghost use Rattle.scasp_command_trial.specs.Inside.{Leads};
ghost use Rattle.scasp_command_trial.specs.Trials.{IsTrial, Tries};

use scasp_cert::{Cert, flat, lines};
use scasp_command_run::SLICE;
use scasp_fill::{Finished, finish};
use scasp_list::Memory;
use scasp_search::{Search, next_event};
use scasp_syntax::Program;
use scasp_written::Event;
use std::alloc::Global;

/// What a trial comes to.
#[derive(Clone, Copy, Debug, PartialEq, Eq)]
pub enum Trial {
    /// An answer, which is right.
    Right {
        /// How many calls were spent up to it.
        calls: u64,
        /// How many lines its trees and checks have.
        lines: u64,
        /// Whether it is flat: it holds over any domain, and else over closed ones.
        any: bool,
    },
    /// There is no answer.
    Ended,
    /// The next cost would pass the budget.
    Spent,
    /// Arithmetic past 128 bits.
    Overflow,
}

/// How many lines the trees and checks of the certificate have. There is no memory for 2^64 - 1 or more.
fn line_count(alloc: Global, cert: &Cert) -> Result<u64, Memory>
    ensures { IfOk result (λ count. count ≡ all_lines (certificate_of cert.now)) }
{
    let count = lines(alloc, cert)?;
    if count == u64::MAX {
        return Err(Memory);
    }
    Ok(count)
}

/// The trial that comes to this answer after so many calls.
fn right(alloc: Global, cert: &Cert, calls: u64) -> Result<Trial, Memory>
    ensures { IfOk result (λ trial. trial ≡ Trial.Right calls (all_lines (certificate_of cert.now)) (is_flat (certificate_of cert.now))) }
{
    let lines = line_count(alloc, cert)?;
    let any = flat(alloc, cert)?;
    Ok(Trial::Right { calls, lines, any })
}

/// What the tree of an answer of the search comes to after so many calls; none where no hints make it accepted.
fn tree_of(
    alloc: Global,
    program: &Program,
    tree: &Cert,
    calls: u64,
) -> Result<Option<Trial>, Memory>
    ensures { IfOk result (λ trial. (old new : Rest) → IsAbout program.now old → Meets old (answered (certificate_of tree.now)) new → calls ≡ new.calls
        → Leads program.now old new trial) }
{
    match finish(alloc, program, tree)? {
        Finished::Answer(cert) => Ok(Some(right(alloc, &cert, calls)?)),
        Finished::Passed => Ok(None),
        Finished::Overflow => Ok(Some(Trial::Overflow)),
    }
}

/// Goes on by one event of the search: what the trial comes to, if that is known then.
fn step(alloc: Global, program: &Program, search: &mut Search) -> Result<Option<Trial>, Memory>
    requires { IsGoing program.now (rest_of search.old) (stopped search.old) }
    ensures leads { IfOk result (λ trial. Leads program.now (rest_of search.old) (rest_of search.new) trial) }
    ensures going { IfOk result (λ trial. trial ≡ None → IsGoing program.now (rest_of search.new) (stopped search.new)) }
{
    match next_event(search, SLICE)? {
        Event::Answer(tree) => tree_of(alloc, program, &tree, search.calls()),
        Event::Ended => Ok(Some(Trial::Ended)),
        Event::Spent => Ok(Some(Trial::Spent)),
        Event::Overflow => Ok(Some(Trial::Overflow)),
    }
}

/// What the search comes to first.
fn try_search(alloc: Global, program: &Program, search: &mut Search) -> Result<Trial, Memory>
    requires { IsGoing program.now (rest_of search.old) (stopped search.old) }
    ensures { IfOk result (λ trial. Tries program.now (rest_of search.old) trial) }
{
    for _event in 0..u64::MAX {
        match step(alloc, program, search)? {
            Some(trial) => return Ok(trial),
            None => {}
        }
    }
    Err(Memory)
}

/// The trial of the first query of a program that has one.
fn try_query(alloc: Global, program: &Program, budget: u64, fresh: u64) -> Result<Trial, Memory>
    requires { IsSome (numbered program.now.queries 1) }
    ensures { IfOk result (λ trial. IsTrial program.now budget fresh trial) }
{
    let mut search = Search::open(alloc, program, 1, budget, fresh)?;
    try_search(alloc, program, &mut search)
}

/// The trial of a program: its first query is run up to the first answer that is right, within so many calls. A program
/// without a query has no answer. `fresh` is the first name that the sample of the answer may use.
///
/// # Errors
///
/// Want of memory.
pub fn try_first(alloc: Global, program: &Program, budget: u64, fresh: u64) -> Result<Trial, Memory>
    ensures { IfOk result (λ trial. IsTrial program.now budget fresh trial) }
{
    match program.query(1) {
        Some(_) => try_query(alloc, program, budget, fresh),
        None => Ok(Trial::Ended),
    }
}
