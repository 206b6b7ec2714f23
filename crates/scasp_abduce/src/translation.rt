//! The translation of a program.
ghost use Rattle.std.specs.Prelude.{◌≡◌, ◌++◌, IfOk, OnOk};
ghost use Rattle.std.specs.List.{flat_map};
ghost use Rattle.scasp_abduce.specs.Translation.{choice_rules, opposed, IsTranslation};

use crate::new_names::{new_name, text_of};
use crate::occurrences::taken_names;
use crate::rules::push_choice;
use crate::taken_names::TakenNames;
use scasp_list::Memory;
use scasp_name::Names;
use scasp_syntax::{Clauses, Pred, Preds, Program};
use std::alloc::Global;

/// Puts the rules of each predicate's choice at the end of the clauses, and the new names into the table.
fn push_choices(
    alloc: Global,
    clauses: &mut Clauses,
    names: &mut Names,
    mut taken: TakenNames,
    preds: &[Pred],
) -> Result<(), Memory>
    ensures clauses { OnOk result (clauses.new ≡ clauses.old ++ flat_map choice_rules (opposed taken names.old preds.now).choices) }
    ensures names { OnOk result (names.new ≡ (opposed taken names.old preds.now).names) }
{
    for pred in preds {
        let text = text_of(alloc, names, pred.name)?;
        let name = new_name(alloc, &taken, names, text)?;
        taken.insert(name)?;
        let (minus, arity) = (false, pred.arity);
        let opposite = Pred { minus, name, arity };
        push_choice(alloc, clauses, *pred, opposite)?;
    }
    Ok(())
}

/// The program in which each abducible predicate is a choice, and the table with the new names. Behind all clauses stand,
/// for each abducible p in order, `p(V0, ..) :- not N(V0, ..).` and `N(V0, ..) :- not p(V0, ..).` N is a new predicate.
/// None is abducible then.
///
/// # Errors
///
/// Want of memory.
pub fn translate(alloc: Global, program: Program, names: Names) -> Result<(Program, Names), Memory>
    ensures { IfOk result (λ x. IsTranslation names program x.0 x.1) }
{
    if program.abducibles.is_empty() {
        return Ok((program, names));
    }
    let taken = taken_names(alloc, &program)?;
    let mut names = names;
    let Program {
        mut clauses,
        queries,
        abducibles: preds,
    } = program;
    push_choices(alloc, &mut clauses, &mut names, taken, preds.as_slice())?;
    let abducibles = Preds::new(alloc);
    let translated = Program {
        clauses,
        queries,
        abducibles,
    };
    Ok((translated, names))
}
