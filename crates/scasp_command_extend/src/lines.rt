//! The lines that are written.
ghost use Rattle.std.specs.Prelude.{◌≡◌, ◌++◌, List, IsTrue, IfOk, OnOk, decimal};
ghost use Rattle.scasp_command_extend.specs.Texts as spec;
ghost use Rattle.scasp_model.specs.Atoms.{SameAtoms, are_distinct};
ghost use Rattle.scasp_syntax.specs.declared.atom.Atom.{Atom as ThisAtom};

use scasp_checker::Refusal;
use scasp_command_check::reason_words;
use scasp_extend::ExtendErr;
use scasp_list::Memory;
use scasp_name::Names;
use scasp_print_atoms::{count_atoms, put_atom_lines};
use scasp_print_words::{put, put_number};
use scasp_syntax::Atom;
use std::alloc::Global;

/// Puts why a block is not accepted at the end.
fn put_refusal(text: &mut Vec<u8>, refusal: Refusal) -> Result<(), Memory>
    ensures { OnOk result (text.new.items ≡ text.old.items ++ spec.obstacle_words (ExtendErr.Refused refusal)) }
{
    put(text, "refused ")?;
    put_number(text, refusal.at)?;
    put(text, " ")?;
    put(text, reason_words(refusal.reason))
}

/// Puts a word and the number that it is about at the end.
fn put_numbered(text: &mut Vec<u8>, word: &str, number: u64) -> Result<(), Memory>
    ensures { OnOk result (text.new.items ≡ text.old.items ++ (word.now ++ decimal number)) }
{
    put(text, word)?;
    put_number(text, number)
}

/// Puts what stands in the way of a model at the end.
pub(crate) fn put_obstacle(text: &mut Vec<u8>, why: ExtendErr) -> Result<(), Memory>
    ensures { OnOk result (text.new.items ≡ text.old.items ++ spec.obstacle_words why) }
{
    match why {
        ExtendErr::Refused(refusal) => put_refusal(text, refusal),
        ExtendErr::Joins(fault) => put_numbered(text, "joins ", fault.rule),
        ExtendErr::Given => put(text, "given"),
        ExtendErr::TooLarge => put(text, "large"),
        ExtendErr::Overflow => put(text, "overflow"),
        ExtendErr::NotClosed { at } => put_numbered(text, "open ", at),
        ExtendErr::Memory => put(text, "memory"),
    }
}

/// Puts how many atoms a model has at the end, and the line of each; no atom stands twice.
pub(crate) fn put_model(
    alloc: Global,
    text: &mut Vec<u8>,
    names: &Names,
    atoms: &[Atom],
) -> Result<(), Memory>
    requires { IsTrue (are_distinct atoms.now) }
    ensures { (set : List ThisAtom) → SameAtoms atoms.now set → OnOk result (text.new.items ≡ text.old.items ++ spec.model_words names.now set) }
{
    put(text, "model ")?;
    put_number(text, count_atoms(atoms))?;
    put(text, "\n")?;
    put_atom_lines(alloc, text, names, atoms)?;
    Ok(())
}

/// The last line, which tells the number of models.
#[tactic(auto, unfolding(crate::specs::Texts::extended_line))]
pub(crate) fn extended_line(alloc: Global, models: u64) -> Result<Vec<u8>, Memory>
    ensures { IfOk result (λ line. line.items ≡ spec.extended_line models) }
{
    let mut line = Vec::new(alloc);
    put(&mut line, "extended ")?;
    put_number(&mut line, models)?;
    put(&mut line, "\n")?;
    Ok(line)
}
