//! The clauses that say which predicates may be assumed.
ghost use Rattle.std.specs.Prelude.{◌≡◌};
ghost use Rattle.scasp_reader_terms.specs.Steps.{Does, token_of};
ghost use Rattle.scasp_reader.specs.Texts.Abducibles.{new_variable, distinct_variable, parameter_at, parameter, some_parameters, bracketed, parameters, named_abducible, abducible};

use crate::texts::clauses::Part;
use scasp_reader_terms::{ARITY_LIMIT, Count, Kind, Reader, Stop};
use scasp_reader_tokens::{Sign, Token};
use scasp_syntax::Pred;
use std::alloc::Global;

fn new_variable(reader: &mut Reader<'_>, alloc: Global, at: u64, text: &str) -> Result<u64, Stop>
    ensures { Does (λ x. x) (new_variable at text.now) reader.old result reader.new }
{
    reader.take();
    reader.variable_at(alloc, at, text)
}

/// The variable that is next, if the clause has not had it.
fn distinct_variable(
    reader: &mut Reader<'_>,
    alloc: Global,
    at: u64,
    text: &str,
) -> Result<u64, Stop>
    ensures { Does (λ x. x) (distinct_variable at text.now) reader.old result reader.new }
{
    if reader.known_variable(text).is_some() {
        return Err(Stop::At(reader.unexpected()));
    }
    new_variable(reader, alloc, at, text)
}

fn parameter_at(reader: &mut Reader<'_>, alloc: Global, at: u64) -> Result<u64, Stop>
    ensures { Does (λ x. x) (parameter_at at (token_of reader.old.tokens)) reader.old result reader.new }
{
    let Some(Token::Variable(text)) = reader.token() else {
        return Err(Stop::At(reader.unexpected()));
    };
    distinct_variable(reader, alloc, at, text.as_str())
}

/// One more parameter behind so many.
fn parameter(reader: &mut Reader<'_>, alloc: Global, count: u64) -> Result<u64, Stop>
    ensures { Does (λ x. x) (parameter count) reader.old result reader.new }
{
    let at = reader.at();
    let is_full = count >= ARITY_LIMIT as u64;
    reader.note_if(is_full, at, Kind::Limit(Count::Arity));
    parameter_at(reader, alloc, at)
}

/// `variable {"," variable}`, and how many they are.
fn some_parameters(reader: &mut Reader<'_>, alloc: Global) -> Result<u64, Stop>
    ensures { Does (λ x. x) some_parameters reader.old result reader.new }
{
    let mut count: u64 = 0;
    let mut left = reader.left();
    while left > 0 {
        parameter(reader, alloc, count)?;
        count += 1;
        if !reader.taken(Sign::Comma) {
            return Ok(count);
        }
        left -= 1;
    }
    Err(Stop::At(reader.unexpected()))
}

/// `"(" variable {"," variable} ")"`, and how many they are.
fn bracketed(reader: &mut Reader<'_>, alloc: Global) -> Result<u64, Stop>
    ensures { Does (λ x. x) bracketed reader.old result reader.new }
{
    reader.expect(Sign::Open)?;
    let outer = reader.set_list(false);
    let count = some_parameters(reader, alloc)?;
    reader.expect(Sign::Close)?;
    reader.set_list(outer);
    Ok(count)
}

/// `["(" variable {"," variable} ")"]`, and how many they are.
fn parameters(reader: &mut Reader<'_>, alloc: Global) -> Result<u64, Stop>
    ensures { Does (λ x. x) parameters reader.old result reader.new }
{
    if reader.is_sign(Sign::Open) {
        bracketed(reader, alloc)
    } else {
        Ok(0)
    }
}

fn named_abducible(reader: &mut Reader<'_>, alloc: Global, text: &str) -> Result<Part, Stop>
    ensures { Does (λ x. x) (named_abducible text.now) reader.old result reader.new }
{
    reader.take();
    let name = reader.interned(text)?;
    let arity = parameters(reader, alloc)?;
    reader.expect(Sign::Stop)?;
    let minus = false;
    Ok(Part::Abducible(Pred { minus, name, arity }))
}

/// `"#abducible" name ["(" variable {"," variable} ")"] "."`
pub fn abducible(reader: &mut Reader<'_>, alloc: Global) -> Result<Part, Stop>
    ensures { Does (λ x. x) abducible reader.old result reader.new }
{
    reader.take();
    let Some(Token::Name(text)) = reader.token() else {
        return Err(Stop::At(reader.unexpected()));
    };
    named_abducible(reader, alloc, text.as_str())
}
