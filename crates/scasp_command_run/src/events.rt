//! What the search for answers to a query comes to, tree after tree.
ghost use Rattle.std.specs.Prelude.{IfOk};
ghost use Rattle.scasp_cert.specs.Certificate.{certificate_of};
ghost use Rattle.scasp_command_run.specs.Inside.Events.{Comes, GoesOn, IsAbout, IsGoing};
ghost use Rattle.scasp_command_run.specs.Queries.{Meets};
ghost use Rattle.scasp_search.specs.Rests.{rest_of, stopped};
ghost use Rattle.scasp_written.specs.Written.Rests.{Rest};
ghost use Rattle.scasp_search_rules.specs.Successors.Machine.{answered};

use crate::ends::QueryEnd;
use scasp_cert::Cert;
use scasp_fill::{Finished, finish};
use scasp_list::Memory;
use scasp_search::Search;
use scasp_syntax::Program;
use scasp_written::Event;
use std::alloc::Global;

/// How many calls a search goes on for before it looks up.
pub const SLICE: u64 = 1_000;

/// What the search comes to next.
#[derive(Drop)]
pub(crate) enum Next {
    /// An answer, which is right.
    Answer(Cert),
    /// A tree that no hints and clash lines make accepted.
    Passed,
    /// The run of the query ends.
    End(QueryEnd),
}

/// What the tree of an answer of the search comes to.
fn next_of(alloc: Global, program: &Program, tree: &Cert) -> Result<Next, Memory>
    ensures comes { IfOk result (λ next. (old new : Rest) → IsAbout program.now old → Meets old (answered (certificate_of tree.now)) new → Comes program.now old new next) }
{
    match finish(alloc, program, tree)? {
        Finished::Answer(cert) => Ok(Next::Answer(cert)),
        Finished::Passed => Ok(Next::Passed),
        Finished::Overflow => Ok(Next::End(QueryEnd::Overflow)),
    }
}

/// The next event of the search, the tree of an answer being finished.
pub(crate) fn next_event(
    alloc: Global,
    program: &Program,
    search: &mut Search,
) -> Result<Next, Memory>
    requires { IsGoing program.now (rest_of search.old) (stopped search.old) }
    ensures comes { IfOk result (λ next. Comes program.now (rest_of search.old) (rest_of search.new) next) }
    ensures goes_on { IfOk result (λ next. GoesOn program.now (rest_of search.new) (stopped search.new) next) }
{
    match scasp_search::next_event(search, SLICE)? {
        Event::Answer(tree) => next_of(alloc, program, &tree),
        Event::Ended => Ok(Next::End(QueryEnd::Ended)),
        Event::Spent => Ok(Next::End(QueryEnd::Spent)),
        Event::Overflow => Ok(Next::End(QueryEnd::Overflow)),
    }
}
