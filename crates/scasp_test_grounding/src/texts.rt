//! Programs, lists of atoms and domains, and ground programs as texts.
use scasp_model::{AtomList, GroundProgram};
use scasp_name::Names;
use scasp_num::Rat;
use scasp_print::put_term;
use scasp_reader::read_program;
use scasp_syntax::{Atom, DeepCopy, Lits, Program, Sequence, Term};
use scasp_tables::Domain;
use std::alloc::Global;
use std::hash::RandomState;
use std::test::Fail;

/// The program that the text spells, with its names, which are hashed by the keys.
pub(crate) fn read(alloc: Global, text: &str, keys: RandomState) -> Result<(Program, Names), Fail> {
    let names = Names::new(alloc, keys)?;
    Ok(read_program(alloc, text.as_bytes(), names)?)
}

/// The heads of clauses.
fn heads(alloc: Global, facts: &Program) -> Result<AtomList, Fail> {
    let mut atoms = Sequence::new(alloc);
    for fact in facts.clauses.as_slice() {
        if let Some(head) = &fact.head {
            atoms.push(head.copy(alloc)?)?;
        }
    }
    Ok(atoms)
}

/// The facts that the text spells, by these names.
pub(crate) fn atoms_in(alloc: Global, text: &str, names: Names) -> Result<AtomList, Fail> {
    let (facts, _names) = read_program(alloc, text.as_bytes(), names)?;
    heads(alloc, &facts)
}

/// The numbers from 0 on, hashed by the keys.
pub(crate) fn numbers(alloc: Global, count: u64, keys: RandomState) -> Result<Domain, Fail> {
    let mut domain = Domain::new(alloc, keys);
    for number in 0..count {
        let _pushed = domain.push(alloc, Term::Num(Rat::new(i128::from(number), 1)?))?;
    }
    Ok(domain)
}

fn push_atom(names: &Names, text: &mut Vec<u8>, atom: &Atom) -> Result<(), Fail> {
    if atom.name.place() < names.len() {
        text.extend_from_slice(names.text(atom.name).as_bytes())?;
    }
    for term in atom.args.as_slice() {
        text.extend_from_slice(b" ")?;
        put_term(text, names, term)?;
    }
    Ok(())
}

fn push_body(names: &Names, text: &mut Vec<u8>, body: &Lits) -> Result<(), Fail> {
    for literal in body.as_slice() {
        let sign = if literal.positive { ", " } else { ", not " };
        text.extend_from_slice(sign.as_bytes())?;
        push_atom(names, text, &literal.atom)?;
    }
    Ok(())
}

/// The ground program in a plain spelling: each head, its body behind commas, and a stop.
pub(crate) fn text_of(alloc: Global, names: &Names, g: &GroundProgram) -> Result<Vec<u8>, Fail> {
    let mut text = Vec::new(alloc);
    for clause in g.as_slice() {
        if let Some(head) = &clause.head {
            push_atom(names, &mut text, head)?;
        }
        push_body(names, &mut text, &clause.body)?;
        text.extend_from_slice(b".")?;
    }
    Ok(text)
}
