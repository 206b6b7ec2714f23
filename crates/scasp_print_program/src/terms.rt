//! Terms, atoms and literals.
ghost use Rattle.std.specs.Prelude.{◌≡◌, ◌++◌, ◌-◌, true, OnOk, if◌then◌else◌};
ghost use Rattle.scasp_syntax.specs.View.{tm_of};
ghost use Rattle.scasp_cert.specs.Text.Terms.{called_text};
ghost use Rattle.scasp_print_program.specs.Terms as spec;

use crate::pieces::{begin_called, begin_term, put_all};
use crate::style::Shown;
use scasp_list::Memory;
use scasp_name::NameId;
use scasp_print_words::put;
use scasp_reader::DEPTH_LIMIT;
use scasp_syntax::{Atom, Lit, Term, Terms};

/// Puts a term at the end, where so many brackets may be opened.
pub fn put_term(out: &mut Vec<u8>, shown: &Shown<'_>, room: u64, term: &Term) -> Result<(), Memory>
    ensures { OnOk result (out.new.items ≡ out.old.items ++ spec.term_text shown.now room (tm_of term.now)) }
{
    let mut waiting = Vec::new(*out.allocator());
    begin_term(out, shown, room, term, &mut waiting)?;
    put_all(out, shown, waiting)
}

/// Puts a name with its arguments in brackets at the end; in these brackets so many may be opened.
fn put_called(
    out: &mut Vec<u8>,
    shown: &Shown<'_>,
    room: u64,
    name: NameId,
    args: &Terms,
) -> Result<(), Memory>
    ensures { OnOk result (out.new.items ≡ out.old.items ++ called_text shown.now.names name args.now (spec.terms_text shown.now room true args.now)) }
{
    let mut waiting = Vec::new(*out.allocator());
    begin_called(out, shown, room, name, args, &mut waiting)?;
    put_all(out, shown, waiting)
}

/// Puts an atom at the end.
#[tactic(auto, unfolding(crate::specs::Terms::atom_text))]
pub fn put_atom(out: &mut Vec<u8>, shown: &Shown<'_>, atom: &Atom) -> Result<(), Memory>
    ensures { OnOk result (out.new.items ≡ out.old.items ++ spec.atom_text shown.now atom.now) }
{
    put(out, if atom.minus { "-" } else { "" })?;
    put_called(out, shown, DEPTH_LIMIT - 1, atom.name, &atom.args)
}

/// Puts a literal at the end.
#[tactic(auto, unfolding(crate::specs::Terms::lit_text))]
pub fn put_lit(out: &mut Vec<u8>, shown: &Shown<'_>, lit: &Lit) -> Result<(), Memory>
    ensures { OnOk result (out.new.items ≡ out.old.items ++ spec.lit_text shown.now lit.now) }
{
    put(out, if lit.positive { "" } else { "not " })?;
    put_atom(out, shown, &lit.atom)
}
