//! Atoms.
ghost use Rattle.std.specs.Prelude.{◌≡◌, map, length};
ghost use Rattle.scasp_syntax.specs.Tm.{items};
ghost use Rattle.scasp_reader_terms.specs.Steps.{Does};
ghost use Rattle.scasp_reader.specs.Bodies.Atoms.{reserved, reserved_of, is_reserved, checked_atom, named_atom, atom};

use scasp_name::NameId;
use scasp_reader_terms::{Kind, Reader, Stop, arguments_of};
use scasp_reader_tokens::{Sign, Token};
use scasp_syntax::{Atom, Terms};
use std::alloc::Global;

/// The most brackets that may be open inside one another.
pub const DEPTH_LIMIT: u64 = 200;

/// The predicates of Prolog that the language lacks, each with its number of arguments.
static RESERVED: [(&str, usize); 10] = [
    ("assert", 1),
    ("asserta", 1),
    ("assertz", 1),
    ("retract", 1),
    ("findall", 3),
    ("forall", 2),
    ("op", 3),
    ("module", 2),
    ("use_module", 1),
    ("use_module", 2),
];

fn is_among(table: &[(&str, usize)], text: &str, arity: usize) -> bool
    ensures { result ≡ is_reserved (map (λ e. reserved_of e.0.now e.1) table.now) text.now arity }
{
    for (known, number) in table {
        if text == *known && *number == arity {
            return true;
        }
    }
    false
}

/// Whether the language lacks the predicate.
fn is_reserved(text: &str, arity: usize) -> bool
    ensures { result ≡ is_reserved reserved text.now arity }
{
    is_among(&RESERVED, text, arity)
}

/// The atom that begins at this place; one of a reserved predicate is noted.
pub(crate) fn checked_atom(
    reader: &mut Reader<'_>,
    at: u64,
    minus: bool,
    text: &str,
    name: NameId,
    args: Terms,
) -> Atom
    ensures { checked_atom at minus text.now name args reader.old ≡ Ok (result, reader.new) }
{
    let test = is_reserved(text, args.len());
    reader.note_if(test, at, Kind::Unsupported);
    Atom { minus, name, args }
}

/// A name that is the next token, and its arguments, in an atom that begins at this place.
fn named_atom(
    reader: &mut Reader<'_>,
    alloc: Global,
    at: u64,
    minus: bool,
    text: &str,
) -> Result<Atom, Stop>
    ensures { Does (λ x. x) (named_atom at minus text.now) reader.old result reader.new }
{
    reader.take();
    let name = reader.interned(text)?;
    let terms = reader.arguments(alloc, DEPTH_LIMIT)?;
    let args = arguments_of(alloc, terms)?;
    Ok(checked_atom(reader, at, minus, text, name, args))
}

/// `["-"] name ["(" term {"," term} ")"]`
pub fn atom(reader: &mut Reader<'_>, alloc: Global) -> Result<Atom, Stop>
    ensures { Does (λ x. x) atom reader.old result reader.new }
{
    let at = reader.at();
    let minus = reader.taken(Sign::Minus);
    let Some(Token::Name(text)) = reader.token() else {
        return Err(Stop::At(reader.unexpected()));
    };
    named_atom(reader, alloc, at, minus, text.as_str())
}
