//! Clauses and queries.
ghost use Rattle.std.specs.Prelude.{◌≡◌, [], IfOk};
ghost use Rattle.scasp_reader_terms.specs.Steps.{Does, token_of};
ghost use Rattle.scasp_reader.specs.Texts.Clauses.{ended, with_body, headed, denial, name_of, named, query, clause_at_sign, clause_at, clause};

use crate::bodies::{atom, body};
use crate::texts::abducibles::abducible;
use scasp_list::{Memory, Sequence};
use scasp_name::NameId;
use scasp_reader_terms::{Reader, Stop};
use scasp_reader_tokens::{Sign, Text, Token};
use scasp_syntax::{Atom, Clause, Items, Pred, Query, VarNames};
use std::alloc::Global;

/// What stands at a place of a text.
#[derive(Debug, Drop)]
pub enum Part {
    Clause(Clause),
    Query(Query),
    /// A predicate that may be assumed.
    Abducible(Pred),
    /// A directive that is skipped.
    Directive,
    /// The end of the text.
    End,
}

impl Part {
    ghost use Rattle.scasp_reader.specs.Texts.Texts.{is_end};

    /// Whether it is the end of the text.
    pub fn is_end(&self) -> bool
        ensures { result ≡ is_end self.now }
    {
        match self {
            Part::Clause(_) | Part::Query(_) | Part::Abducible(_) | Part::Directive => false,
            Part::End => true,
        }
    }
}

/// `atom [":-" body] "." | ":-" body "." | "?-" body "." | abducible`
#[tactic(auto, unfolding(crate::specs::Texts::Clauses::clause))]
pub fn clause(reader: &mut Reader<'_>, alloc: Global) -> Result<Part, Stop>
    ensures { Does (λ x. x) clause reader.old result reader.new }
{
    reader.forget_variables();
    clause_here(reader, alloc)
}

fn clause_here(reader: &mut Reader<'_>, alloc: Global) -> Result<Part, Stop>
    ensures { Does (λ x. x) (clause_at (token_of reader.old.tokens)) reader.old result reader.new }
{
    let Some(token) = reader.token() else {
        return Err(Stop::At(reader.unexpected()));
    };
    match token {
        Token::Name(_) => headed(reader, alloc),
        Token::Sign(sign) => clause_at_sign(reader, alloc, *sign),
        Token::Abducible => abducible(reader, alloc),
        Token::Not
        | Token::Variable(_)
        | Token::Number(_)
        | Token::SkippedDirective
        | Token::UnclosedDirective
        | Token::OtherDirective
        | Token::BadByte
        | Token::Unclosed
        | Token::End => Err(Stop::At(reader.unexpected())),
    }
}

fn clause_at_sign(reader: &mut Reader<'_>, alloc: Global, sign: Sign) -> Result<Part, Stop>
    ensures { Does (λ x. x) (clause_at_sign sign) reader.old result reader.new }
{
    match sign {
        Sign::Minus => headed(reader, alloc),
        Sign::If => denial(reader, alloc),
        Sign::Query => query(reader, alloc),
        Sign::Open
        | Sign::Close
        | Sign::OpenList
        | Sign::CloseList
        | Sign::Comma
        | Sign::Bar
        | Sign::Plus
        | Sign::Times
        | Sign::Over
        | Sign::Equal
        | Sign::Differ
        | Sign::Stop
        | Sign::Relation(_, _)
        | Sign::Foreign => Err(Stop::At(reader.unexpected())),
    }
}

/// A fact or a rule.
fn headed(reader: &mut Reader<'_>, alloc: Global) -> Result<Part, Stop>
    ensures { Does (λ x. x) headed reader.old result reader.new }
{
    let head = atom(reader, alloc)?;
    if reader.taken(Sign::If) {
        with_body(reader, alloc, Some(head))
    } else {
        ended(reader, Some(head), Items::new(alloc))
    }
}

fn denial(reader: &mut Reader<'_>, alloc: Global) -> Result<Part, Stop>
    ensures { Does (λ x. x) denial reader.old result reader.new }
{
    reader.take();
    with_body(reader, alloc, None)
}

/// The clause of this head, at its body.
fn with_body(reader: &mut Reader<'_>, alloc: Global, head: Option<Atom>) -> Result<Part, Stop>
    ensures { Does (λ x. x) (with_body head) reader.old result reader.new }
{
    let items = body(reader, alloc)?;
    ended(reader, head, items)
}

/// The clause of this head and body, at its stop.
fn ended(reader: &mut Reader<'_>, head: Option<Atom>, body: Items) -> Result<Part, Stop>
    ensures { Does (λ x. x) (ended head body) reader.old result reader.new }
{
    reader.expect(Sign::Stop)?;
    let vars = reader.variables().len() as u64;
    Ok(Part::Clause(Clause { head, body, vars }))
}

fn query(reader: &mut Reader<'_>, alloc: Global) -> Result<Part, Stop>
    ensures { Does (λ x. x) query reader.old result reader.new }
{
    reader.take();
    let body = body(reader, alloc)?;
    reader.expect(Sign::Stop)?;
    let texts = copied(alloc, reader.variables())?;
    let names = named(reader, alloc, texts.as_slice())?;
    Ok(Part::Query(Query { body, names }))
}

fn copied(alloc: Global, texts: &[Text]) -> Result<Sequence<Text>, Memory>
    ensures { IfOk result (λ copies. copies ≡ texts.now) }
{
    let mut copies = Sequence::new(alloc);
    for text in texts {
        let copy = Text::from_str(alloc, text.as_str())?;
        copies.push(copy)?;
    }
    Ok(copies)
}

/// The names of a query's variables, put into the table in order.
fn named(reader: &mut Reader<'_>, alloc: Global, texts: &[Text]) -> Result<VarNames, Stop>
    ensures { Does (λ x. x) (named [] texts.now) reader.old result reader.new }
{
    let mut names = VarNames::new(alloc);
    for text in texts {
        let name = name_of(reader, text.as_str())?;
        names.push(name)?;
    }
    Ok(names)
}

/// The name of a query's variable; none for `_`.
fn name_of(reader: &mut Reader<'_>, text: &str) -> Result<Option<NameId>, Stop>
    ensures { Does (λ x. x) (name_of text.now) reader.old result reader.new }
{
    if text == "_" {
        return Ok(None);
    }
    let name = reader.interned(text)?;
    Ok(Some(name))
}
