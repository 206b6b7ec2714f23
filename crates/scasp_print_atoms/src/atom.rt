//! The text of an atom.
ghost use Rattle.std.specs.Prelude.{◌≡◌, ◌++◌, true, false, IfOk, OnOk};
ghost use Rattle.scasp_cert.specs.Text.Terms as spec;
ghost use Rattle.scasp_syntax.specs.View.{tms_of};

use scasp_list::Memory;
use scasp_name::Names;
use scasp_print::put_term;
use scasp_print_words::{put, put_name};
use scasp_syntax::{Atom, Term};
use std::alloc::Global;

/// Puts terms at the end, a comma in front of each.
fn put_others(out: &mut Vec<u8>, names: &Names, terms: &[Term]) -> Result<(), Memory>
    ensures { OnOk result (out.new.items ≡ out.old.items ++ spec.terms_text names.now false (tms_of terms.now)) }
{
    let mut rest = terms;
    while let [term, behind @ ..] = rest {
        put(out, ",")?;
        put_term(out, names, term)?;
        rest = behind;
    }
    Ok(())
}

/// Puts terms at the end, with commas between them.
fn put_terms(out: &mut Vec<u8>, names: &Names, terms: &[Term]) -> Result<(), Memory>
    ensures { OnOk result (out.new.items ≡ out.old.items ++ spec.terms_text names.now true (tms_of terms.now)) }
{
    match terms {
        [] => Ok(()),
        [first, others @ ..] => {
            put_term(out, names, first)?;
            put_others(out, names, others)
        }
    }
}

/// Puts the arguments of an atom at the end, between brackets, where it has any.
fn put_called(out: &mut Vec<u8>, names: &Names, atom: &Atom) -> Result<(), Memory>
    ensures { OnOk result (out.new.items ≡ out.old.items ++ spec.called_text names.now atom.now.name atom.now.args (spec.terms_text names.now true atom.now.args)) }
{
    put_name(out, names, atom.name)?;
    if atom.args.len() == 0 {
        return Ok(());
    }
    put(out, "(")?;
    put_terms(out, names, atom.args.as_slice())?;
    put(out, ")")
}

/// Puts an atom at the end.
#[tactic(auto, unfolding(scasp_cert::specs::Text::Terms::atom_text))]
pub fn put_atom(out: &mut Vec<u8>, names: &Names, atom: &Atom) -> Result<(), Memory>
    ensures { OnOk result (out.new.items ≡ out.old.items ++ spec.atom_text names.now atom.now) }
{
    put(out, if atom.minus { "-" } else { "" })?;
    put_called(out, names, atom)
}

/// The text of an atom.
pub(crate) fn atom_text(alloc: Global, names: &Names, atom: &Atom) -> Result<Vec<u8>, Memory>
    ensures { IfOk result (λ text. text.items ≡ spec.atom_text names.now atom.now) }
{
    let mut text = Vec::new(alloc);
    put_atom(&mut text, names, atom)?;
    Ok(text)
}
