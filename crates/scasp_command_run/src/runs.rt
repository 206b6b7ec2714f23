//! The run of all queries.
ghost use Rattle.std.specs.Prelude.{◌≡◌, ◌≤◌, ◌||◌, if◌then◌else◌, IsErrOf};
ghost use Rattle.scasp_io.specs.Counts.{Rose};
ghost use Rattle.scasp_io.specs.Taken.{Writes};
ghost use Rattle.scasp_command_run.specs.Inside.Whole.{last_end};
ghost use Rattle.scasp_command_run.specs.Jobs.{job};
ghost use Rattle.scasp_command_run.specs.Runs.{IsRun};

use crate::ends::{QueryEnd, RunEnd};
use crate::printing::header_line;
use crate::queries::run_query;
use crate::requests::Request;
use scasp_io::{OutputErr, Sink, write_all};
use scasp_name::Names;
use scasp_print_samples::table_of;
use scasp_syntax::Program;
use std::alloc::Global;

/// Runs the queries of a program in order, each within so many calls and up to so many answers, or to all where no number
/// is given. `names` is the table by which the program was read. Each answer is checked and printed as soon as it is
/// found, with the remarks on it, and a line at the end of each query; the first line is written first.
///
/// The run ends with the last query, or where the budget is spent or arithmetic overflows.
///
/// # Errors
///
/// `Write` where a write failed: then a first part of the run's text was written. `Memory` for want of memory, or where a
/// count passes 64 bits: then the text of the run up to there was written.
pub fn run<K: Sink>(
    alloc: Global,
    program: &Program,
    names: Names,
    request: Request,
    out: &mut K,
) -> Result<RunEnd, OutputErr>
    ensures output { Writes (IsRun (job program.now names request)) (K.taken out.old) (K.taken out.new) result }
    ensures write { IsErrOf result OutputErr.Write → Rose (K.faults out.old) (K.faults out.new) }
    ensures counts { K.faults out.old ≤ K.faults out.new }
{
    write_all(out, header_line(request.format))?;
    let mut table = table_of(names);
    let mut answered = false;
    for place in 0..program.queries.len() {
        let number = place as u64 + 1;
        let queried = run_query(alloc, program, &mut table, number, request, out)?;
        answered = either(answered, queried.answered);
        match last_end(queried.end) {
            Some(end) => return Ok(end),
            None => {}
        }
    }
    Ok(end_by(answered))
}

fn either(first: bool, second: bool) -> bool
    ensures { result ≡ (first || second) }
{
    first || second
}

/// How the run ends where a query ends so; none where the next query follows.
fn last_end(end: QueryEnd) -> Option<RunEnd>
    ensures { result ≡ last_end end }
{
    match end {
        QueryEnd::Ended | QueryEnd::Stopped => None,
        QueryEnd::Spent => Some(RunEnd::Spent),
        QueryEnd::Overflow => Some(RunEnd::Overflow),
    }
}

/// How the run ends behind the last query, where an answer was printed or was not.
fn end_by(answered: bool) -> RunEnd
    ensures { result ≡ (if answered then RunEnd.Done else RunEnd.NoAnswer) }
{
    if answered {
        RunEnd::Done
    } else {
        RunEnd::NoAnswer
    }
}
