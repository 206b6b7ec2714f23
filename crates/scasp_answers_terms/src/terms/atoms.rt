//! Atoms and literals.
ghost use Rattle.std.specs.Prelude.{◌≡◌};
ghost use Rattle.scasp_reader_terms.specs.Names.{place_in};
ghost use Rattle.scasp_answers_terms.specs.Tokens.Terms.{arguments_at, unsigned_atom_at, atom_at, lit_at};
ghost use Rattle.scasp_answers_terms.specs.Tokens.View.{Reads};

use crate::terms::names::name;
use crate::terms::terms::listed_until;
use crate::tokens::{Cursor, Stop, Token};
use scasp_name::Names;
use scasp_syntax::{Atom, Lit, Terms};
use std::alloc::Global;

/// Takes the arguments behind a name, if there are any.
fn arguments(alloc: Global, cursor: &mut Cursor<'_>, names: &Names) -> Result<Terms, Stop>
    ensures { Reads (λ ts. ts) (arguments_at (place_in names.now) cursor.old) result cursor.new }
{
    if cursor.takes(b'(') {
        return listed_until(alloc, b")", cursor, names);
    }
    Ok(Terms::new(alloc))
}

/// Takes an atom whose sign has been taken.
fn unsigned_atom(
    alloc: Global,
    minus: bool,
    cursor: &mut Cursor<'_>,
    names: &Names,
) -> Result<Atom, Stop>
    ensures { Reads (λ a. a) (unsigned_atom_at (place_in names.now) minus cursor.old) result cursor.new }
{
    let name = name(alloc, cursor, names)?;
    let args = arguments(alloc, cursor, names)?;
    Ok(Atom { minus, name, args })
}

/// Takes an atom.
pub fn atom(alloc: Global, cursor: &mut Cursor<'_>, names: &Names) -> Result<Atom, Stop>
    ensures { Reads (λ a. a) (atom_at (place_in names.now) cursor.old) result cursor.new }
{
    if cursor.takes(b'-') {
        return unsigned_atom(alloc, true, cursor, names);
    }
    unsigned_atom(alloc, false, cursor, names)
}

/// Takes a literal.
pub fn literal(alloc: Global, cursor: &mut Cursor<'_>, names: &Names) -> Result<Lit, Stop>
    ensures { Reads (λ l. l) (lit_at (place_in names.now) cursor.old) result cursor.new }
{
    let positive = !cursor.skips(b"not ");
    let atom = atom(alloc, cursor, names)?;
    Ok(Lit { positive, atom })
}
