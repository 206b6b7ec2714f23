//! Whole texts.
ghost use Rattle.std.specs.Prelude.{◌≡◌, ◌<◌, ◌^◌, IfOk, OnOk};
ghost use Rattle.scasp_reader_terms.specs.Steps.{Does};
ghost use Rattle.scasp_syntax.specs.Programs.{first_occurrences};
ghost use Rattle.scasp_reader.specs.Texts.Texts.{limited_clause, skipped, next_part, no_parts, part_count, with_part, parts, reading_of, read, Answers};

use crate::texts::clauses::{Part, clause};
use scasp_graph::Numbering;
use scasp_list::Memory;
use scasp_name::Names;
use scasp_reader_terms::{Count, Fault, Kind, Reader, Stop};
use scasp_reader_tokens::{Placed, Token, tokens};
use scasp_syntax::{Clauses, Pred, Preds, Queries};
use std::alloc::Global;

/// The most bytes that a text may have.
pub const BYTE_LIMIT: usize = 4_194_304;

/// The most clauses of all kinds, together, that a text may have.
pub const CLAUSE_LIMIT: usize = 10_000;

/// Clauses, queries and predicates that may be assumed, each in the order of the text, and as often as they stand there.
#[derive(Debug, Drop)]
pub struct Parts {
    pub clauses: Clauses,
    pub queries: Queries,
    pub abducibles: Preds,
}

/// The clauses and queries of a text as they are written, without generated denials; the predicates that may be assumed,
/// each once, in the order of the text; and the table of names behind it.
#[derive(Drop)]
pub struct Reading {
    pub clauses: Clauses,
    pub queries: Queries,
    pub abducibles: Preds,
    pub names: Names,
}

/// One more clause, of any kind, behind so many.
fn limited_clause(reader: &mut Reader<'_>, alloc: Global, count: usize) -> Result<Part, Stop>
    ensures { Does (λ x. x) (limited_clause count) reader.old result reader.new }
{
    if count >= CLAUSE_LIMIT {
        return Err(Stop::At(reader.told(reader.at(), Kind::Limit(Count::Clauses))));
    }
    clause(reader, alloc)
}

fn skipped(reader: &mut Reader<'_>) -> Part
    ensures { skipped reader.old ≡ Ok (result, reader.new) }
{
    reader.take();
    Part::Directive
}

/// What stands behind so many clauses, of any kind.
#[tactic(auto, unfolding(crate::specs::Texts::Texts::next_part))]
fn next_part(reader: &mut Reader<'_>, alloc: Global, count: usize) -> Result<Part, Stop>
    ensures { Does (λ x. x) (next_part count) reader.old result reader.new }
{
    let Some(token) = reader.token() else {
        return limited_clause(reader, alloc, count);
    };
    match token {
        Token::End => Ok(Part::End),
        Token::SkippedDirective => Ok(skipped(reader)),
        Token::UnclosedDirective => Err(Stop::At(reader.told(reader.at(), Kind::Unclosed))),
        Token::OtherDirective => Err(Stop::At(reader.told(reader.at(), Kind::Unsupported))),
        Token::BadByte => Err(Stop::At(reader.told(reader.at(), Kind::BadByte))),
        Token::Unclosed => Err(Stop::At(reader.told(reader.at(), Kind::Unclosed))),
        Token::Name(_)
        | Token::Not
        | Token::Variable(_)
        | Token::Number(_)
        | Token::Sign(_)
        | Token::Abducible => limited_clause(reader, alloc, count),
    }
}

impl Parts {
    fn new(alloc: Global) -> Parts
        ensures { result ≡ no_parts }
    {
        Parts {
            clauses: Clauses::new(alloc),
            queries: Queries::new(alloc),
            abducibles: Preds::new(alloc),
        }
    }

    /// The number of clauses of all kinds.
    fn count(&self) -> usize
        requires { part_count self.now < 2 ^ 64 }
        ensures { result ≡ part_count self.now }
    {
        let rules = self.clauses.as_slice().len();
        let queries = self.queries.as_slice().len();
        rules + queries + self.abducibles.as_slice().len()
    }

    /// Puts a clause, a query or a predicate at the end.
    fn push(&mut self, part: Part) -> Result<(), Memory>
        ensures { OnOk result (self.new ≡ with_part self.old part) }
    {
        match part {
            Part::Clause(clause) => self.clauses.push(clause),
            Part::Query(query) => self.queries.push(query),
            Part::Abducible(pred) => self.abducibles.push(pred),
            Part::Directive | Part::End => Ok(()),
        }
    }
}

/// All parts of a text up to its end.
#[tactic(auto, unfolding(crate::specs::Texts::Texts::parts))]
fn all_parts(reader: &mut Reader<'_>, alloc: Global) -> Result<Parts, Stop>
    ensures { Does (λ x. x) parts reader.old result reader.new }
{
    let mut parts = Parts::new(alloc);
    let mut left = reader.left();
    while left > 0 {
        let part = next_part(reader, alloc, parts.count())?;
        if part.is_end() {
            return Ok(parts);
        }
        parts.push(part)?;
        left -= 1;
    }
    Err(Stop::At(reader.unexpected()))
}

/// Each predicate where it first occurs.
fn first_occurrences(alloc: Global, preds: &[Pred]) -> Result<Preds, Memory>
    ensures { IfOk result (λ firsts. firsts ≡ first_occurrences preds.now) }
{
    let mut firsts = Numbering::new(alloc);
    for pred in preds {
        firsts.insert(pred)?;
    }
    firsts.predicates(alloc)
}

/// What the tokens are read as.
fn reading_of(alloc: Global, tokens: &[Placed], names: Names) -> Result<Reading, Stop>
    ensures { Answers result (reading_of tokens.now names) }
{
    let mut reader = Reader::new(alloc, tokens, names);
    let Parts {
        clauses,
        queries,
        abducibles: written,
    } = all_parts(&mut reader, alloc)?;
    if let Some(fault) = reader.fault() {
        return Err(Stop::At(fault));
    }
    let abducibles = first_occurrences(alloc, written.as_slice())?;
    let names = reader.into_names();
    Ok(Reading {
        clauses,
        queries,
        abducibles,
        names,
    })
}

/// Reads the text of a program: its clauses and queries as they are written, and the predicates that may be assumed; or the first fault with its place.
/// Names are put into the table in the order of the text; a query's variables behind its stop.
///
/// A longer text than [`BYTE_LIMIT`] is refused before it is looked at.
#[tactic(auto, unfolding(crate::specs::Texts::Texts::read))]
pub fn read_text(alloc: Global, bytes: &[u8], names: Names) -> Result<Reading, Stop>
    ensures { Answers result (read names bytes.now) }
{
    if bytes.len() > BYTE_LIMIT {
        let at = BYTE_LIMIT as u64;
        let kind = Kind::Limit(Count::Bytes);
        return Err(Stop::At(Fault { at, kind }));
    }
    let tokens = tokens(alloc, bytes)?;
    reading_of(alloc, tokens.as_slice(), names)
}
