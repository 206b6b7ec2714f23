//! The universal variables that begin at a line.
ghost use Rattle.std.specs.Prelude.{◌≡◌, ◌<◌, ◌+◌, ◌++◌, ◌∷◌, ◌&&◌, [], IfOk, OnOk, filter, length, nat_eq, not};
ghost use Rattle.std.specs.List.{flat_map};
ghost use Rattle.scasp_search_rules.specs.Successors.Calls.{head_args};
ghost use Rattle.scasp_search_rules.specs.Successors.Numbering.{all_met, line_universals, met, universal_variables};
ghost use Rattle.scasp_search_rules.specs.Successors.Reading.{among, count_from};
ghost use Rattle.scasp_syntax.specs.Tm.{items, weight, weight_s};
ghost use Rattle.scasp_syntax.specs.View.{tm_of};

use scasp_list::Memory;
use scasp_name::NameId;
use scasp_search_calls::{head_args, vars_of_clause};
use scasp_search_constraints::among;
use scasp_search_rules::{Line, Lines};
use scasp_search_terms::constraints::push_all_vars;
use scasp_syntax::{Atom, Program, Term, Terms, VarList, Walk};
use std::alloc::Global;

/// Whether the names are the same and have as many arguments.
fn is_same_shape(first: NameId, args: &Terms, second: NameId, others: &Terms) -> bool
    ensures { result ≡ (nat_eq first second && nat_eq (length (items args.now)) (length (items others.now))) }
{
    first == second && args.len() == others.len()
}

/// Puts the head variables that a part of a literal gives a meaning to behind those found before. If both have arguments and one
/// shape, their arguments are left to be met before what was left.
#[tactic(auto, using(crate::proofs::FinishedLemmas::MetLemmas::variable_met, crate::proofs::FinishedLemmas::MetLemmas::args_met, crate::proofs::FinishedLemmas::MetLemmas::number_passed, crate::proofs::FinishedLemmas::MetLemmas::number_met, crate::proofs::FinishedLemmas::MetLemmas::args_next, crate::proofs::FinishedLemmas::MetLemmas::shapes_apart, scasp_unify::proofs::PartLemmas::less_apart))]
fn push_met<'a>(
    head: &'a Term,
    part: &'a Term,
    heads: &mut Walk<'a>,
    parts: &mut Walk<'a>,
    found: &mut VarList,
) -> Result<(), Memory>
    ensures met { OnOk result (found.new ++ all_met heads.new parts.new ≡ found.old ++ (met (tm_of head.now) (tm_of part.now) ++ all_met heads.old parts.old)) }
    ensures less { OnOk result (weight_s heads.new < weight (tm_of head.now) + weight_s heads.old) }
{
    match (head, part) {
        (Term::Var(x), _) => {
            found.push(*x)?;
            Ok(())
        }
        (Term::App(_, args), Term::Var(_)) => {
            push_all_vars(args, found)?;
            Ok(())
        }
        (Term::App(first, args), Term::App(second, others)) => {
            if !is_same_shape(*first, args, *second, others) {
                return Ok(());
            }
            heads.enter(args)?;
            parts.enter(others)?;
            Ok(())
        }
        (Term::App(_, _), Term::Num(_)) | (Term::Num(_), _) => Ok(()),
    }
}

/// Puts the head variables that the parts of a literal give a meaning to behind those found before. It takes memory for the terms
/// that are still to be met, and no machine stack.
#[tactic(auto, using(crate::proofs::FinishedLemmas::MetLemmas::pair_met, crate::proofs::FinishedLemmas::MetLemmas::no_heads, crate::proofs::FinishedLemmas::MetLemmas::no_parts))]
fn push_all_met(
    alloc: Global,
    heads: &Terms,
    parts: &Terms,
    found: &mut VarList,
) -> Result<(), Memory>
    ensures { OnOk result (found.new ≡ found.old ++ all_met heads.now parts.now) }
{
    let mut left = Walk::over(alloc, heads.as_slice());
    let mut others = Walk::over(alloc, parts.as_slice());
    'pairs: while let Some(head) = left.next() {
        let Some(part) = others.next() else {
            return Ok(());
        };
        push_met(head, part, &mut left, &mut others, found)?;
    }
    Ok(())
}

/// The head variables that the arguments of the atom give a meaning to, by this rule.
fn met_by(
    alloc: Global,
    program: &Program,
    atom: &Atom,
    rule: u64,
    first: u64,
) -> Result<VarList, Memory>
    ensures { IfOk result (λ found. found ≡ all_met (head_args program.now rule first) atom.now.args) }
{
    let head = head_args(alloc, program, rule, first)?;
    let mut found = VarList::new(alloc);
    push_all_met(alloc, &head, &atom.args, &mut found)?;
    Ok(found)
}

/// Puts the variable behind those found before, if it is not among some.
fn push_unless(x: u64, but: &[u64], found: &mut VarList) -> Result<(), Memory>
    ensures { OnOk result (found.new ≡ found.old ++ filter (λ x. not (among x but.now)) (x ∷ [])) }
{
    if among(x, but) {
        return Ok(());
    }
    found.push(x)
}

/// Puts so many variables, from `first` on, but for some, behind those found before.
fn push_others(first: u64, count: u64, but: &[u64], found: &mut VarList) -> Result<(), Memory>
    ensures { OnOk result (found.new ≡ found.old ++ filter (λ x. not (among x but.now)) (count_from first count)) }
{
    let end = first.checked_add(count).ok_or(Memory)?;
    for x in first..end {
        push_unless(x, but, found)?;
    }
    Ok(())
}

/// Puts so many variables, from `first` on, behind those found before.
fn push_count(first: u64, count: u64, found: &mut VarList) -> Result<(), Memory>
    ensures { OnOk result (found.new ≡ found.old ++ count_from first count) }
{
    let end = first.checked_add(count).ok_or(Memory)?;
    for x in first..end {
        found.push(x)?;
    }
    Ok(())
}

fn push_copies(xs: &[u64], found: &mut VarList) -> Result<(), Memory>
    ensures { OnOk result (found.new ≡ found.old ++ xs.now) }
{
    for x in xs {
        found.push(*x)?;
    }
    Ok(())
}

/// Puts the universal variables that begin at the line behind those found before.
fn push_universals(
    alloc: Global,
    program: &Program,
    line: &Line,
    found: &mut VarList,
) -> Result<(), Memory>
    ensures { OnOk result (found.new ≡ found.old ++ line_universals program.now line.now) }
{
    match line {
        Line::Rule { atom, rule, first } => {
            let met = met_by(alloc, program, atom, *rule, *first)?;
            push_others(
                *first,
                vars_of_clause(program, *rule),
                met.as_slice(),
                found,
            )
        }
        Line::Check { clause, first } => {
            push_count(*first, vars_of_clause(program, *clause), found)
        }
        Line::Split { parts, .. } => push_copies(parts.as_slice(), found),
        Line::Pos { .. }
        | Line::Neg { .. }
        | Line::Loop { .. }
        | Line::Seen { .. }
        | Line::Test(_)
        | Line::Void
        | Line::Leaf(_)
        | Line::Head(_) => Ok(()),
    }
}

/// Puts the universal variables of the lines behind the variables found before.
pub(crate) fn push_all_universals(
    alloc: Global,
    program: &Program,
    lines: &Lines,
    found: &mut VarList,
) -> Result<(), Memory>
    ensures { OnOk result (found.new ≡ found.old ++ universal_variables program.now lines.now) }
{
    for line in lines.as_slice() {
        push_universals(alloc, program, line, found)?;
    }
    Ok(())
}
