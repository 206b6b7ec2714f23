//! The lines of atoms.
ghost use Rattle.std.specs.Prelude.{◌≡◌, ◌++◌, ◌<◌, ◌^◌, List, map, IsTrue, IfOk, OnOk};
ghost use Rattle.scasp_cert.specs.Text.Terms as terms;
ghost use Rattle.scasp_model.specs.Atoms.{SameAtoms, are_distinct};
ghost use Rattle.scasp_print_atoms.specs.Lines as spec;
ghost use Rattle.scasp_print_atoms.specs.Order.{in_byte_order};
ghost use Rattle.scasp_syntax.specs.declared.atom.Atom.{Atom as ThisAtom};

use crate::atom::atom_text;
use scasp_list::Memory;
use scasp_name::Names;
use scasp_print_words::put;
use scasp_syntax::Atom;
use std::alloc::Global;

/// The texts of the atoms, in their order.
fn atom_texts(alloc: Global, names: &Names, atoms: &[Atom]) -> Result<Vec<Vec<u8>>, Memory>
    ensures { IfOk result (λ texts. map (λ text. text.items) texts.items ≡ map (terms.atom_text names.now) atoms.now) }
{
    let mut texts = Vec::new(alloc);
    for atom in atoms {
        texts.push(atom_text(alloc, names, atom)?)?;
    }
    Ok(texts)
}

/// The texts of the atoms, in byte order.
fn ordered_texts(alloc: Global, names: &Names, atoms: &[Atom]) -> Result<Vec<Vec<u8>>, Memory>
    ensures { IfOk result (λ texts. map (λ text. text.items) texts.items ≡ in_byte_order (map (terms.atom_text names.now) atoms.now)) }
{
    let mut texts = atom_texts(alloc, names, atoms)?;
    texts.sort()?;
    Ok(texts)
}

/// Puts the line of an atom at the end.
fn put_line(out: &mut Vec<u8>, text: &[u8]) -> Result<(), Memory>
    ensures { OnOk result (out.new.items ≡ out.old.items ++ spec.atom_line text.now) }
{
    put(out, " ")?;
    out.extend_from_slice(text)?;
    put(out, "\n")
}

/// Puts the lines of atoms of which none stands twice at the end, in byte order of their texts: those of each list of the same atoms.
///
/// # Errors
///
/// Want of memory.
pub fn put_atom_lines(
    alloc: Global,
    out: &mut Vec<u8>,
    names: &Names,
    atoms: &[Atom],
) -> Result<(), Memory>
    requires { IsTrue (are_distinct atoms.now) }
    ensures { (set : List ThisAtom) → SameAtoms atoms.now set → OnOk result (out.new.items ≡ out.old.items ++ spec.atom_lines names.now set) }
{
    let texts = ordered_texts(alloc, names, atoms)?;
    for text in texts.as_slice() {
        put_line(out, text.as_slice())?;
    }
    Ok(())
}

/// The number of atoms of which none stands twice: that of each list of the same atoms.
pub fn count_atoms(atoms: &[Atom]) -> u64
    requires { IsTrue (are_distinct atoms.now) }
    ensures { (set : List ThisAtom) → SameAtoms atoms.now set → result ≡ spec.atom_count set }
{
    atoms.len() as u64
}
