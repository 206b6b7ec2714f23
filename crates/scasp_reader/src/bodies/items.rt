//! Items of bodies.
ghost use Rattle.std.specs.Prelude.{◌≡◌, Err, is_some};
ghost use Rattle.scasp_syntax.specs.View.{tm_of};
ghost use Rattle.scasp_reader_terms.specs.Steps.{Does, place_of, token_of};
ghost use Rattle.scasp_reader.specs.Bodies.Items.{equation_of, equation_behind, no_equation, equation, relation, call_behind, named_item, literal, negative_item, unnamed_item, item_at_sign, item};

use crate::bodies::ahead::{begins_equation, begins_negation, equation_sign};
use crate::bodies::atoms::{DEPTH_LIMIT, atom, checked_atom};
use crate::bodies::comparisons::{comparison, relation_of};
use scasp_name::NameId;
use scasp_reader_terms::{Kind, Reader, Stop, arguments_of};
use scasp_reader_tokens::{Sign, Token};
use scasp_syntax::{Item, Lit, Term, Terms};
use std::alloc::Global;

/// `["not"] atom | term ("=" | "\=") term | expression relation expression`
#[tactic(auto, unfolding(crate::specs::Bodies::Items::item))]
pub fn item(reader: &mut Reader<'_>, alloc: Global) -> Result<Item, Stop>
    ensures { Does (λ x. x) item reader.old result reader.new }
{
    let Some(token) = reader.token() else {
        return Err(Stop::At(reader.unexpected()));
    };
    match token {
        Token::Not => negative_item(reader, alloc),
        Token::Name(text) => named_item(reader, alloc, text.as_str()),
        Token::Variable(_) => unnamed_item(reader, alloc),
        Token::Number(_) => unnamed_item(reader, alloc),
        Token::Sign(sign) => item_at_sign(reader, alloc, *sign),
        Token::Abducible
        | Token::SkippedDirective
        | Token::UnclosedDirective
        | Token::OtherDirective
        | Token::BadByte
        | Token::Unclosed
        | Token::End => Err(Stop::At(reader.unexpected())),
    }
}

fn item_at_sign(reader: &mut Reader<'_>, alloc: Global, sign: Sign) -> Result<Item, Stop>
    ensures { Does (λ x. x) (item_at_sign (place_of reader.old.tokens) sign) reader.old result reader.new }
{
    match sign {
        Sign::Minus => unnamed_item(reader, alloc),
        Sign::Open => unnamed_item(reader, alloc),
        Sign::OpenList => equation(reader, alloc),
        Sign::Close
        | Sign::CloseList
        | Sign::Comma
        | Sign::Bar
        | Sign::Plus
        | Sign::Times
        | Sign::Over
        | Sign::If
        | Sign::Query
        | Sign::Equal
        | Sign::Differ
        | Sign::Stop
        | Sign::Relation(_, _)
        | Sign::Foreign => Err(Stop::At(reader.unexpected())),
    }
}

/// An item that begins with a variable, a number, `-` or `(`.
fn unnamed_item(reader: &mut Reader<'_>, alloc: Global) -> Result<Item, Stop>
    ensures { Does (λ x. x) (unnamed_item (place_of reader.old.tokens)) reader.old result reader.new }
{
    if begins_negation(reader.tokens()) {
        let at = reader.at();
        literal(reader, alloc, at, true)
    } else if begins_equation(reader.tokens()) {
        equation(reader, alloc)
    } else {
        comparison(reader, alloc)
    }
}

/// Whether a relation is the next token.
fn is_at_relation(reader: &Reader<'_>) -> bool
    ensures { result ≡ is_some (relation (token_of reader.now.tokens)) }
{
    relation_of(reader.token()).is_some()
}

/// An atom with its sign, in an item that begins at this place.
fn literal(reader: &mut Reader<'_>, alloc: Global, at: u64, positive: bool) -> Result<Item, Stop>
    ensures { Does (λ x. x) (literal at positive) reader.old result reader.new }
{
    let atom = atom(reader, alloc)?;
    if positive && is_at_relation(reader) {
        return Err(Stop::At(reader.told(at, Kind::NotLinear)));
    }
    Ok(Item::Call(Lit { positive, atom }))
}

fn negative_item(reader: &mut Reader<'_>, alloc: Global) -> Result<Item, Stop>
    ensures { Does (λ x. x) (negative_item (place_of reader.old.tokens)) reader.old result reader.new }
{
    let at = reader.at();
    reader.take();
    literal(reader, alloc, at, false)
}

/// `term ("=" | "\=") term`
fn equation(reader: &mut Reader<'_>, alloc: Global) -> Result<Item, Stop>
    ensures { Does (λ x. x) equation reader.old result reader.new }
{
    let at = reader.at();
    let left = reader.term(alloc, DEPTH_LIMIT)?;
    match equation_sign(reader.token()) {
        Some(are_equal) => equation_behind(reader, alloc, left, are_equal),
        None => Err(no_equation(reader, at)),
    }
}

/// Why reading stops behind a term that begins at this place, where no sign of an equation follows.
fn no_equation(reader: &Reader<'_>, at: u64) -> Stop
    ensures { Does (λ x. x) (no_equation at) reader.now (Err result) reader.now }
{
    if is_at_relation(reader) {
        Stop::At(reader.told(at, Kind::NotLinear))
    } else {
        Stop::At(reader.unexpected())
    }
}

/// What stands behind the left side; the sign is the next token.
fn equation_behind(
    reader: &mut Reader<'_>,
    alloc: Global,
    left: Term,
    are_equal: bool,
) -> Result<Item, Stop>
    ensures { Does (λ x. x) (equation_behind (tm_of left) are_equal) reader.old result reader.new }
{
    reader.take();
    let right = reader.term(alloc, DEPTH_LIMIT)?;
    Ok(equation_of(are_equal, left, right))
}

fn equation_of(are_equal: bool, left: Term, right: Term) -> Item
    ensures { result ≡ equation_of are_equal (tm_of left) (tm_of right) }
{
    if are_equal {
        Item::Equal(left, right)
    } else {
        Item::Differ(left, right)
    }
}

/// An atom, or a term of an equation.
fn named_item(reader: &mut Reader<'_>, alloc: Global, text: &str) -> Result<Item, Stop>
    ensures { Does (λ x. x) (named_item (place_of reader.old.tokens) text.now) reader.old result reader.new }
{
    let at = reader.at();
    reader.take();
    let name = reader.interned(text)?;
    let terms = reader.arguments(alloc, DEPTH_LIMIT)?;
    let args = arguments_of(alloc, terms)?;
    match equation_sign(reader.token()) {
        Some(are_equal) => equation_behind(reader, alloc, Term::App(name, args), are_equal),
        None => call_behind(reader, at, text, name, args),
    }
}

/// The atom that begins at this place, which is no side of a relation.
fn call_behind(
    reader: &mut Reader<'_>,
    at: u64,
    text: &str,
    name: NameId,
    args: Terms,
) -> Result<Item, Stop>
    ensures { Does (λ x. x) (call_behind at text.now name args) reader.old result reader.new }
{
    if is_at_relation(reader) {
        return Err(Stop::At(reader.told(at, Kind::NotLinear)));
    }
    let atom = checked_atom(reader, at, false, text, name, args);
    let positive = true;
    Ok(Item::Call(Lit { positive, atom }))
}
