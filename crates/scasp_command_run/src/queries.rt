//! The run of a query.
ghost use Rattle.std.specs.Prelude.{◌≡◌, ◌+◌, ◌≤◌, ◌↔◌, ℕ, List, [], None, Some, IsErrOf, IsSome, IfSome, IfOk, OnOk, IsTrue};
ghost use Rattle.scasp_cert.specs.Certificate.{certificate_of};
ghost use Rattle.scasp_io.specs.Counts.{Rose};
ghost use Rattle.scasp_io.specs.Taken.{Writes};
ghost use Rattle.scasp_command_run.specs.Inside.Continuing.{QueryText, Standing, Steps};
ghost use Rattle.scasp_command_run.specs.Inside.Progresses.{IsAnswered, standing};
ghost use Rattle.scasp_command_run.specs.Inside.Events.{IsGoing};
ghost use Rattle.scasp_print_samples.specs.Tables.{IsTable};
ghost use Rattle.scasp_command_run.specs.Jobs.{job};
ghost use Rattle.scasp_command_run.specs.Queries.{Prints, fewer};
ghost use Rattle.scasp_search.specs.Rests.{rest_of, stopped};
ghost use Rattle.scasp_syntax.specs.Programs.{numbered};
ghost use Rattle.scasp_syntax.specs.declared.program.Program.{Program as ThisProgram};

use crate::ends::QueryEnd;
use crate::events::{Next, next_event};
use crate::printing::{answer_text, write_answer, write_end};
use crate::requests::Request;
use scasp_cert::Cert;
use scasp_command_words::Format;
use scasp_io::{OutputErr, Sink};
use scasp_list::Memory;
use scasp_print_samples::{Table, name_sample};
use scasp_search::Search;
use scasp_syntax::Program;
use std::alloc::Global;

/// How the run of a query ended, and whether an answer was printed.
#[derive(Clone, Copy)]
pub(crate) struct Queried {
    pub end: QueryEnd,
    pub answered: bool,
}

/// The run of a query between two events.
#[derive(Drop)]
pub(crate) struct Progress {
    pub search: Search,
    /// How many more answers are asked for; all where no number is given.
    pub asked: Option<u64>,
    /// How many answers were printed.
    pub printed: u64,
    /// How the answers are written.
    pub format: Format,
}

/// Whether no more answer is asked for.
fn is_enough(asked: Option<u64>) -> bool
    ensures { IsTrue result ↔ (asked ≡ Some 0) }
{
    match asked {
        Some(count) => count == 0,
        None => false,
    }
}

/// The answers that are still asked for behind one more.
fn fewer(asked: Option<u64>) -> Option<u64>
    ensures { result ≡ fewer asked }
{
    match asked {
        Some(count) => Some(count.saturating_sub(1)),
        None => None,
    }
}

/// The number one further. There is no memory for more answers than 2^64 - 1.
fn one_more(count: u64) -> Result<u64, Memory>
    ensures { IfOk result (λ next. next ≡ count + 1) }
{
    count.checked_add(1).ok_or(Memory)
}

/// Prints the answer, to which the search has come from the standing `first`, as the next one.
fn print_next<K: Sink>(
    alloc: Global,
    program: &Program,
    table: &mut Table,
    progress: &mut Progress,
    cert: &Cert,
    out: &mut K,
) -> Result<Option<QueryEnd>, OutputErr>
    ensures output { (names : List (List ℕ)) (query : ℕ) (first : Standing) → IsTable names table.old → IsAnswered program.now first (certificate_of cert.now) (standing progress.old)
        → Writes (Steps program.now names query first (standing progress.new)) (K.taken out.old) (K.taken out.new) result }
    ensures table { OnOk result ((names : List (List ℕ)) → IsTable names table.old → IsTable names table.new) }
    ensures search { progress.new.search ≡ progress.old.search }
    ensures write { IsErrOf result OutputErr.Write → Rose (K.faults out.old) (K.faults out.new) }
    ensures counts { K.faults out.old ≤ K.faults out.new }
{
    let number = one_more(progress.printed)?;
    name_sample(alloc, table, cert)?;
    let text = answer_text(alloc, program, &table.names, number, cert, progress.format)?;
    write_answer(text.as_slice(), out)?;
    progress.asked = fewer(progress.asked);
    progress.printed = number;
    Ok(None)
}

/// Prints the line with which the run of the query ends.
fn print_end<K: Sink>(
    alloc: Global,
    query: u64,
    end: QueryEnd,
    out: &mut K,
) -> Result<Option<QueryEnd>, OutputErr>
    ensures output { (p : ThisProgram) (names : List (List ℕ)) (old new : Standing) → Prints p names old.asked old.rest [] (Some end)
        → Writes (Steps p names query old new) (K.taken out.old) (K.taken out.new) result }
    ensures table { IfOk result (λ o. o ≡ Some end) }
    ensures write { IsErrOf result OutputErr.Write → Rose (K.faults out.old) (K.faults out.new) }
    ensures counts { K.faults out.old ≤ K.faults out.new }
{
    write_end(alloc, query, end, out)?;
    Ok(Some(end))
}

/// Goes on by one event of the search, and prints what it comes to: the end of the query's run, if it ends there.
fn step<K: Sink>(
    alloc: Global,
    program: &Program,
    query: u64,
    table: &mut Table,
    progress: &mut Progress,
    out: &mut K,
) -> Result<Option<QueryEnd>, OutputErr>
    requires { IsGoing program.now (rest_of progress.old.search) (stopped progress.old.search) }
    ensures output { (names : List (List ℕ)) → IsTable names table.old
        → Writes (Steps program.now names query (standing progress.old) (standing progress.new)) (K.taken out.old) (K.taken out.new) result }
    ensures table { OnOk result ((names : List (List ℕ)) → IsTable names table.old → IsTable names table.new) }
    ensures going { IfOk result (λ end. end ≡ None → IsGoing program.now (rest_of progress.new.search) (stopped progress.new.search)) }
    ensures write { IsErrOf result OutputErr.Write → Rose (K.faults out.old) (K.faults out.new) }
    ensures counts { K.faults out.old ≤ K.faults out.new }
{
    if is_enough(progress.asked) {
        return print_end(alloc, query, QueryEnd::Stopped, out);
    }
    match next_event(alloc, program, &mut progress.search)? {
        Next::Answer(cert) => print_next(alloc, program, table, progress, &cert, out),
        Next::Passed => Ok(None),
        Next::End(end) => print_end(alloc, query, end, out),
    }
}

/// Runs the query of this number, as is asked.
pub(crate) fn run_query<K: Sink>(
    alloc: Global,
    program: &Program,
    table: &mut Table,
    query: u64,
    request: Request,
    out: &mut K,
) -> Result<Queried, OutputErr>
    requires { IsSome (numbered program.now.queries query) }
    ensures output { (names : List (List ℕ)) → IsTable names table.old → IfSome (numbered program.now.queries query)
        (λ q. Writes (QueryText (job program.now names request) query q) (K.taken out.old) (K.taken out.new) result) }
    ensures table { OnOk result ((names : List (List ℕ)) → IsTable names table.old → IsTable names table.new) }
    ensures write { IsErrOf result OutputErr.Write → Rose (K.faults out.old) (K.faults out.new) }
    ensures counts { K.faults out.old ≤ K.faults out.new }
{
    let search = Search::open(alloc, program, query, request.budget, table.program)?;
    let mut progress = Progress {
        search,
        asked: request.answers,
        printed: 0,
        format: request.format,
    };
    for _event in 0..u64::MAX {
        let answered = progress.printed > 0;
        match step(alloc, program, query, table, &mut progress, out)? {
            Some(end) => return Ok(Queried { end, answered }),
            None => {}
        }
    }
    Err(OutputErr::Memory)
}
