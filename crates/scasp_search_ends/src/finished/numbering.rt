//! The free variables of a certificate, in the order of its text.
ghost use Rattle.std.specs.Prelude.{◌≡◌, ◌++◌, ◌∷◌, [], if◌then◌else◌, IfOk, OnOk, filter};
ghost use Rattle.std.specs.List.{flat_map};
ghost use Rattle.scasp_search_rules.specs.Successors.Numbering.{firsts, free_variables, line_vars};
ghost use Rattle.scasp_search_rules.specs.Successors.Reading.{among, con_vars};
ghost use Rattle.scasp_search_rules.specs.Successors.Variables.{is_existential};
ghost use Rattle.scasp_syntax.specs.Tm.{var};
ghost use Rattle.scasp_unify.specs.Unification.{terms_vars};

use scasp_list::Memory;
use scasp_search_constraints::among;
use scasp_search_rules::{Kind, Line, Lines, State};
use scasp_search_terms::constraints::{con_vars, push_all_vars};
use scasp_search_terms::variables::made_at;
use scasp_syntax::{Con, Cons, Terms, VarList};
use std::alloc::Global;

fn is_existential(state: &State, x: u64) -> bool
    ensures { result ≡ is_existential state.now x }
{
    match made_at(state, x).kind {
        Kind::Existential => true,
        Kind::Universal | Kind::Matched => false,
    }
}

/// Puts the variables of a constraint behind those found before.
fn push_con_vars(alloc: Global, constraint: &Con, found: &mut VarList) -> Result<(), Memory>
    ensures { OnOk result (found.new ≡ found.old ++ con_vars var constraint.now) }
{
    for x in con_vars(alloc, constraint, &[])?.as_slice() {
        found.push(*x)?;
    }
    Ok(())
}

/// Puts the variables of a line, in the order of its text, behind those found before.
fn push_line_vars(alloc: Global, line: &Line, found: &mut VarList) -> Result<(), Memory>
    ensures { OnOk result (found.new ≡ found.old ++ line_vars line.now) }
{
    match line {
        Line::Pos { atom, terms, .. } => {
            push_all_vars(&atom.args, found)?;
            push_all_vars(terms, found)
        }
        Line::Neg { atom, .. } => push_all_vars(&atom.args, found),
        Line::Loop { lit, .. } | Line::Seen { lit, .. } => push_all_vars(&lit.atom.args, found),
        Line::Split { constraint, .. } => push_con_vars(alloc, constraint, found),
        Line::Test(_)
        | Line::Rule { .. }
        | Line::Check { .. }
        | Line::Void
        | Line::Leaf(_)
        | Line::Head(_) => Ok(()),
    }
}

fn push_given_vars(alloc: Global, given: &[Con], found: &mut VarList) -> Result<(), Memory>
    ensures { OnOk result (found.new ≡ found.old ++ flat_map (con_vars var) given.now) }
{
    for constraint in given {
        push_con_vars(alloc, constraint, found)?;
    }
    Ok(())
}

fn push_lines_vars(alloc: Global, lines: &[Line], found: &mut VarList) -> Result<(), Memory>
    ensures { OnOk result (found.new ≡ found.old ++ flat_map line_vars lines.now) }
{
    for line in lines {
        push_line_vars(alloc, line, found)?;
    }
    Ok(())
}

/// Those of the variables that are existential.
fn existential_among(alloc: Global, state: &State, xs: &[u64]) -> Result<VarList, Memory>
    ensures { IfOk result (λ made. made ≡ filter (is_existential state.now) xs.now) }
{
    let mut made = VarList::new(alloc);
    for x in xs {
        if is_existential(state, *x) {
            made.push(*x)?;
        }
    }
    Ok(made)
}

/// Puts the variable behind those made before, if it is none of them.
fn push_first(x: u64, made: &mut VarList) -> Result<(), Memory>
    ensures { OnOk result (made.new ≡ (if among x made.old then made.old else made.old ++ x ∷ [])) }
{
    if among(x, made.as_slice()) {
        return Ok(());
    }
    made.push(x)
}

/// Each of the variables at its first place alone.
fn firsts(alloc: Global, xs: &[u64]) -> Result<VarList, Memory>
    ensures { IfOk result (λ made. made ≡ firsts xs.now) }
{
    let mut made = VarList::new(alloc);
    for x in xs {
        push_first(*x, &mut made)?;
    }
    Ok(made)
}

/// The free variables of a certificate with these terms, given constraints and lines.
pub(crate) fn free_variables(
    alloc: Global,
    state: &State,
    terms: &Terms,
    given: &Cons,
    lines: &Lines,
) -> Result<VarList, Memory>
    ensures { IfOk result (λ made. made ≡ free_variables state.now terms.now given.now lines.now) }
{
    let mut all = VarList::new(alloc);
    push_all_vars(terms, &mut all)?;
    push_given_vars(alloc, given.as_slice(), &mut all)?;
    push_lines_vars(alloc, lines.as_slice(), &mut all)?;
    let free = existential_among(alloc, state, all.as_slice())?;
    firsts(alloc, free.as_slice())
}
