//! Commands one after the other.
ghost use Rattle.std.specs.Prelude.{◌≡◌, ℕ, true, List, IfOk, OnOk, length};
ghost use Rattle.scasp_cert.specs.Certificate.{certificate_of};
ghost use Rattle.scasp_print_samples.specs.Tables.{IsTable};
ghost use Rattle.scasp_serve_replies.specs.Desks.{IsCounted, Tells, standing};
ghost use Rattle.scasp_serve_replies.specs.Inside.{Answers};
ghost use Rattle.scasp_serve_replies.specs.Replies.{at_start};
ghost use Rattle.scasp_serve_replies.specs.Tallies.{behind, tally_of as tally_at, with_tally};
ghost use Rattle.scasp_serve_replies.specs.Texts.{session_line, word_of};
ghost use Rattle.scasp_serve_words.specs.declared.command.Command.TheVariants as command;
ghost use Rattle.scasp_syntax.specs.declared.program.Program.{Program as ThisProgram};

use crate::coming::{Coming, NoAnswer};
use crate::slices::go_on;
use crate::tallies::{NOTHING, Tally, next_number, note, tally_of};
use crate::texts::{answer_text, full_line, number_line, session_line, word_of};
use scasp_cert::Cert;
use scasp_list::Memory;
use scasp_name::Names;
use scasp_print_samples::{Table, name_sample, table_of};
use scasp_serve_words::Command;
use scasp_sessions::{NoSession, OpenErr, Sessions};
use scasp_syntax::Program;
use std::alloc::Global;

/// The most sessions that are opened one after the other; memory would be wanting before.
const MOST_SESSIONS: usize = 9_000_000_000_000_000_000;

/// The open sessions of a program, what was told of each session, and the names by which answers are written.
#[derive(Drop)]
pub struct Desk {
    pub sessions: Sessions,
    /// Of each session that was opened, in the order of their numbers.
    pub tallies: Vec<Tally>,
    pub table: Table,
}

impl Desk {
    /// No session. `names` is the table by which the program was read.
    pub fn new(alloc: Global, names: Names) -> Desk
        ensures table { IsTable names result.table }
        ensures counted { IsCounted result }
        ensures standing { standing result ≡ at_start }
    {
        Desk {
            sessions: Sessions::new(alloc),
            tallies: Vec::new(alloc),
            table: table_of(names),
        }
    }
}

/// The reply to `open`.
fn reply_to_open(
    alloc: Global,
    program: &Program,
    desk: &mut Desk,
    query: u64,
    budget: u64,
) -> Result<Vec<u8>, Memory>
    requires { IsCounted desk.old }
    ensures tells { (names : List (List ℕ)) → IsTable names desk.old.table → IfOk result (λ text. Tells program.now names desk.old (command.Open query budget) text.items desk.new) }
    ensures counted { OnOk result (IsCounted desk.new) }
    ensures table { desk.new.table ≡ desk.old.table }
{
    if desk.tallies.len() >= MOST_SESSIONS {
        return Err(Memory);
    }
    match desk
        .sessions
        .open(program, query, budget, desk.table.program)
    {
        Ok(id) => {
            desk.tallies.push(NOTHING)?;
            number_line(alloc, "opened", id)
        }
        Err(OpenErr::NoQuery) => number_line(alloc, "no query", query),
        Err(OpenErr::Full) => full_line(alloc),
        Err(OpenErr::Memory) => Err(Memory),
    }
}

/// The reply to `next` for a session that was told an overflow before.
fn reply_again(alloc: Global, desk: &Desk, id: u64) -> Result<Vec<u8>, Memory>
    requires { (tally_at id desk.now.tallies.items).overflowed ≡ true }
    ensures { (program : ThisProgram) (names : List (List ℕ)) (calls : ℕ) → IfOk result (λ text. Tells program names desk.now (command.Next id calls) text.items desk.now) }
{
    match desk.sessions.calls(id) {
        Some(_) => session_line(alloc, id, word_of(NoAnswer::Overflow)),
        None => number_line(alloc, "no session", id),
    }
}

/// The reply to `next` where the session came to an answer.
fn reply_with_answer(
    alloc: Global,
    desk: &mut Desk,
    id: u64,
    cert: &Cert,
) -> Result<Vec<u8>, Memory>
    ensures text { (names : List (List ℕ)) → IsTable names desk.old.table → IfOk result (λ text. Answers names desk.old id (certificate_of cert.now) text.items desk.new) }
    ensures sessions { desk.new.sessions ≡ desk.old.sessions }
    ensures count { length desk.new.tallies.items ≡ length desk.old.tallies.items }
{
    let tally = tally_of(desk.tallies.as_slice(), id);
    let number = next_number(tally)?;
    name_sample(alloc, &mut desk.table, cert)?;
    let told = Tally {
        answers: number,
        ..tally
    };
    note(&mut desk.tallies, id, told);
    answer_text(alloc, &desk.table.names, id, number, cert)
}

/// What was told of a session behind this.
fn behind(tally: Tally, none: NoAnswer) -> Tally
    ensures { result ≡ behind none tally }
{
    match none {
        NoAnswer::Paused | NoAnswer::Ended | NoAnswer::Spent => tally,
        NoAnswer::Overflow => Tally {
            overflowed: true,
            ..tally
        },
    }
}

/// The reply to `next` where the session came to no answer.
fn reply_without(alloc: Global, desk: &mut Desk, id: u64, none: NoAnswer) -> Result<Vec<u8>, Memory>
    ensures text { IfOk result (λ text. text.items ≡ session_line id (word_of none)) }
    ensures desk { desk.new ≡ record desk.old { tallies = desk.new.tallies } }
    ensures tallies { desk.new.tallies.items ≡ with_tally id (behind none (tally_at id desk.old.tallies.items)) desk.old.tallies.items }
{
    let tally = tally_of(desk.tallies.as_slice(), id);
    note(&mut desk.tallies, id, behind(tally, none));
    session_line(alloc, id, word_of(none))
}

/// The reply to `next`.
fn reply_to_next(
    alloc: Global,
    program: &Program,
    desk: &mut Desk,
    id: u64,
    calls: u64,
) -> Result<Vec<u8>, Memory>
    requires { IsCounted desk.old }
    ensures tells { (names : List (List ℕ)) → IsTable names desk.old.table → IfOk result (λ text. Tells program.now names desk.old (command.Next id calls) text.items desk.new) }
    ensures counted { OnOk result (IsCounted desk.new) }
    ensures table { (names : List (List ℕ)) → IsTable names desk.old.table → OnOk result (IsTable names desk.new.table) }
{
    if tally_of(desk.tallies.as_slice(), id).overflowed {
        return reply_again(alloc, desk, id);
    }
    match go_on(alloc, program, &mut desk.sessions, id, calls)? {
        Some(Coming::Answer(cert)) => reply_with_answer(alloc, desk, id, &cert),
        Some(Coming::Without(none)) => reply_without(alloc, desk, id, none),
        None => number_line(alloc, "no session", id),
    }
}

/// The reply to `close`.
fn reply_to_close(alloc: Global, desk: &mut Desk, id: u64) -> Result<Vec<u8>, Memory>
    requires { IsCounted desk.old }
    ensures tells { (program : ThisProgram) (names : List (List ℕ)) → IfOk result (λ text. Tells program names desk.old (command.Close id) text.items desk.new) }
    ensures counted { OnOk result (IsCounted desk.new) }
    ensures table { desk.new.table ≡ desk.old.table }
{
    match desk.sessions.close(id) {
        Ok(()) => number_line(alloc, "closed", id),
        Err(NoSession) => number_line(alloc, "no session", id),
    }
}

/// Carries out the command; its reply, as it is written.
///
/// # Errors
///
/// Want of memory.
pub fn reply(
    alloc: Global,
    program: &Program,
    desk: &mut Desk,
    command: Command,
) -> Result<Vec<u8>, Memory>
    requires { IsCounted desk.old }
    ensures tells { (names : List (List ℕ)) → IsTable names desk.old.table → IfOk result (λ text. Tells program.now names desk.old command text.items desk.new) }
    ensures counted { OnOk result (IsCounted desk.new) }
    ensures table { (names : List (List ℕ)) → IsTable names desk.old.table → OnOk result (IsTable names desk.new.table) }
{
    match command {
        Command::Open { query, budget } => reply_to_open(alloc, program, desk, query, budget),
        Command::Next { id, calls } => reply_to_next(alloc, program, desk, id, calls),
        Command::Close { id } => reply_to_close(alloc, desk, id),
    }
}
