//! Terms, lists of terms, atoms and literals.
ghost use Rattle.std.specs.Prelude.{◌≡◌, ◌++◌, true, OnOk, if◌then◌else◌};
ghost use Rattle.scasp_syntax.specs.View.{tm_of};
ghost use Rattle.scasp_cert.specs.Text.Terms as spec;

use crate::pieces::{begin_arguments, begin_called, begin_term, put_all};
use scasp_name::{Memory, NameId, Names};
use scasp_print_words::put;
use scasp_syntax::{Atom, Lit, Term, Terms};

/// Puts a term at the end.
pub fn put_term(out: &mut Vec<u8>, names: &Names, term: &Term) -> Result<(), Memory>
    ensures { OnOk result (out.new.items ≡ out.old.items ++ spec.term_text names.now (tm_of term.now)) }
{
    let mut waiting = Vec::new(*out.allocator());
    begin_term(out, names, term, &mut waiting)?;
    put_all(out, names, waiting)
}

/// Puts a name with its arguments in brackets at the end.
fn put_called(out: &mut Vec<u8>, names: &Names, name: NameId, args: &Terms) -> Result<(), Memory>
    ensures { OnOk result (out.new.items ≡ out.old.items ++ spec.called_text names.now name args.now (spec.terms_text names.now true args.now)) }
{
    let mut waiting = Vec::new(*out.allocator());
    begin_called(out, names, name, args, &mut waiting)?;
    put_all(out, names, waiting)
}

/// Puts terms at the end, with commas between them.
fn put_terms(out: &mut Vec<u8>, names: &Names, terms: &Terms) -> Result<(), Memory>
    ensures { OnOk result (out.new.items ≡ out.old.items ++ spec.terms_text names.now true terms.now) }
{
    let mut waiting = Vec::new(*out.allocator());
    begin_arguments(out, names, true, terms.as_slice(), &mut waiting)?;
    put_all(out, names, waiting)
}

/// Puts a list of terms in square brackets at the end.
#[tactic(auto, unfolding(scasp_cert::specs::Text::Terms::list_text))]
pub fn put_list(out: &mut Vec<u8>, names: &Names, terms: &Terms) -> Result<(), Memory>
    ensures { OnOk result (out.new.items ≡ out.old.items ++ spec.list_text names.now terms.now) }
{
    put(out, "[")?;
    put_terms(out, names, terms)?;
    put(out, "]")
}

/// Puts the minus sign of a predicate at the end, where it has one.
pub fn put_minus(out: &mut Vec<u8>, minus: bool) -> Result<(), Memory>
    ensures { OnOk result (out.new.items ≡ out.old.items ++ spec.minus_text minus) }
{
    put(out, if minus { "-" } else { "" })
}

/// Puts an atom at the end.
#[tactic(auto, unfolding(scasp_cert::specs::Text::Terms::atom_text))]
pub fn put_atom(out: &mut Vec<u8>, names: &Names, atom: &Atom) -> Result<(), Memory>
    ensures { OnOk result (out.new.items ≡ out.old.items ++ spec.atom_text names.now atom.now) }
{
    put_minus(out, atom.minus)?;
    put_called(out, names, atom.name, &atom.args)
}

/// Puts a literal at the end.
#[tactic(auto, unfolding(scasp_cert::specs::Text::Terms::lit_text))]
pub fn put_lit(out: &mut Vec<u8>, names: &Names, lit: &Lit) -> Result<(), Memory>
    ensures { OnOk result (out.new.items ≡ out.old.items ++ spec.lit_text names.now lit.now) }
{
    put(out, if lit.positive { "" } else { "not " })?;
    put_atom(out, names, &lit.atom)
}
