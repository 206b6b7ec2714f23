//! The least model of rules over atoms.
ghost use Rattle.std.specs.Prelude.{◌≡◌, [], IsTrue, IfOk, OnOk, Some, slice_get};
ghost use Rattle.scasp_model.specs.Atoms.{SameAtoms, are_distinct};
ghost use Rattle.scasp_model.specs.Least.{least_model};
ghost use Rattle.scasp_closure.specs.Reading.{Stand, StandFor, Extends, atoms_in, atoms_onto};
ghost use Rattle.scasp_worklist.specs.Numbered.{has};

use scasp_list::{Memory, Sequence};
use scasp_model::{AtomList, DefiniteRule, DefiniteRules};
use scasp_syntax::{Atom, DeepCopy};
use scasp_tables::AtomTable;
use scasp_worklist::{NumberList, NumberSet, NumberedRule, NumberedRules, least_set};
use std::alloc::Global;
use std::hash::RandomState;

/// The least model of the rules, each atom once, in time linear in the rules (Dowling and Gallier 1984). The order is that in which
/// the rules first name the atoms. The atoms are hashed by the keys.
pub fn closure(
    alloc: Global,
    rules: &DefiniteRules,
    random: RandomState,
) -> Result<AtomList, Memory>
    ensures atoms { IfOk result (λ atoms. SameAtoms atoms (least_model rules.now)) }
    ensures distinct { IfOk result (λ atoms. IsTrue (are_distinct atoms)) }
{
    let mut table = AtomTable::new(alloc, random);
    let numbered = numbered_rules(alloc, &mut table, rules)?;
    let set = least_set(alloc, &numbered)?;
    atoms_in(alloc, &set, table.as_slice())
}

/// The rules over numbers that stand for the rules; their atoms stand in the table.
fn numbered_rules(
    alloc: Global,
    table: &mut AtomTable,
    rules: &DefiniteRules,
) -> Result<NumberedRules, Memory>
    ensures { IfOk result (λ numbered. StandFor table.new numbered rules.now) }
{
    let mut numbered = Sequence::new(alloc);
    for rule in rules.as_slice() {
        numbered.push(numbered_rule(alloc, table, rule)?)?;
    }
    Ok(numbered)
}

/// The rule over numbers that stands for the rule; new atoms go last in the table.
pub fn numbered_rule(
    alloc: Global,
    table: &mut AtomTable,
    rule: &DefiniteRule,
) -> Result<NumberedRule, Memory>
    ensures grown { OnOk result (Extends table.old table.new) }
    ensures head { IfOk result (λ made. slice_get table.new made.head ≡ Some rule.now.head) }
    ensures body { IfOk result (λ made. Stand table.new made.body rule.now.body) }
{
    let head = table.put(alloc, &rule.head)? as u64;
    let body = numbered_atoms(alloc, table, rule.body.as_slice())?;
    Ok(NumberedRule { head, body })
}

/// The numbers of the atoms; new ones go last in the table.
fn numbered_atoms(
    alloc: Global,
    table: &mut AtomTable,
    atoms: &[Atom],
) -> Result<NumberList, Memory>
    ensures grown { OnOk result (Extends table.old table.new) }
    ensures numbers { IfOk result (λ numbers. Stand table.new numbers atoms.now) }
{
    let mut numbers = Sequence::new(alloc);
    for atom in atoms {
        numbers.push(table.put(alloc, atom)? as u64)?;
    }
    Ok(numbers)
}

/// The atoms whose numbers, their places in the list, are in the set.
pub fn atoms_in(alloc: Global, set: &NumberSet, atoms: &[Atom]) -> Result<AtomList, Memory>
    ensures { IfOk result (λ made. made ≡ atoms_in (has set.now) atoms.now) }
{
    atoms_onto(alloc, set, atoms)
}

/// The same, one atom after the other.
fn atoms_onto(alloc: Global, set: &NumberSet, atoms: &[Atom]) -> Result<AtomList, Memory>
    ensures { IfOk result (λ made. made ≡ atoms_onto (has set.now) 0 [] atoms.now) }
{
    let mut made = Sequence::new(alloc);
    for (number, atom) in atoms.iter().enumerate() {
        if set.contains(number as u64) {
            made.push(atom.copy(alloc)?)?;
        }
    }
    Ok(made)
}
