//! Which variables are not kept, and which constraints speak of them.
ghost use Rattle.std.specs.Prelude.{◌≡◌, ◌||◌, ℕ, Bool, IfOk, OnOk, map, nat_eq};
ghost use Rattle.std.specs.List.{list_any};
ghost use Rattle.scasp_project.specs.Dropped.{con_has, is_dropped, is_dropped_number, part_has, parts_have, parts_in, row_has};
ghost use Rattle.scasp_project.specs.Choices.{speak_of_dropped};
ghost use Rattle.scasp_project.specs.Inside.CodeReading.{numbers_of, reading};
ghost use Rattle.scasp_syntax.specs.View.{tm_of};
ghost use Rattle.scasp_unify.specs.Solving.{part_of};
ghost use Rattle.scasp_unify.specs.Unification.{term_vars, terms_vars};

use scasp_list::Memory;
use scasp_num::Row;
use scasp_syntax::{Con, Term, Terms};
use scasp_unify::{Part, Resolver, resolved_sides};
use std::alloc::Global;

/// Whether the variable is among those.
fn is_among(variables: &[u64], x: u64) -> bool
    ensures { result ≡ list_any (nat_eq x) variables.now }
{
    variables.iter().any(|y| x == *y)
}

/// Whether the variable is not kept.
pub(crate) fn is_dropped(keep: &[u64], x: u64) -> bool
    ensures { result ≡ is_dropped keep.now x }
{
    !is_among(keep, x)
}

/// Whether the list says of the variable, which no equation binds, that it is a number.
pub(crate) fn is_number(resolver: &Resolver, x: u64) -> bool
    ensures { result ≡ numbers_of resolver.now x }
{
    resolver.numbers.as_slice().iter().any(|y| *y == x)
}

/// Whether one of the variables is not kept.
fn has_dropped(keep: &[u64], variables: &[u64]) -> bool
    ensures { result ≡ list_any (is_dropped keep.now) variables.now }
{
    variables.iter().any(|x| is_dropped(keep, *x))
}

/// Whether one of the variables is not kept, and a number by the list.
fn has_dropped_number(keep: &[u64], resolver: &Resolver, variables: &[u64]) -> bool
    ensures { result ≡ list_any (is_dropped_number (reading resolver.now keep.now)) variables.now }
{
    for x in variables {
        if is_dropped(keep, *x) && is_number(resolver, *x) {
            return true;
        }
    }
    false
}

/// Puts the variables of the terms behind those that were found. It takes memory for the lists of terms that are still to
/// be seen, and no machine stack.
fn push_variables(alloc: Global, terms: &Terms, found: &mut Vec<u64>) -> Result<(), Memory>
    ensures { OnOk result ((test : ℕ → Bool) → list_any test found.new.items ≡ (list_any test found.old.items || list_any test (terms_vars terms.now))) }
{
    let mut unseen: Vec<&[Term]> = Vec::new(alloc);
    unseen.push(terms.as_slice())?;
    while let Some(list) = unseen.pop() {
        for term in list {
            match term {
                Term::Var(x) => found.push(*x)?,
                Term::Num(_) => {}
                Term::App(_, args) => unseen.push(args.as_slice())?,
            }
        }
    }
    Ok(())
}

/// The variables of the term.
fn term_variables(alloc: Global, term: &Term) -> Result<Vec<u64>, Memory>
    ensures { IfOk result (λ found. (test : ℕ → Bool) → list_any test found.items ≡ list_any test (term_vars (tm_of term.now))) }
{
    let mut found = Vec::new(alloc);
    match term {
        Term::Var(x) => found.push(*x)?,
        Term::Num(_) => {}
        Term::App(_, args) => push_variables(alloc, args, &mut found)?,
    }
    Ok(found)
}

/// The variables of the part.
fn part_variables(alloc: Global, part: &Part) -> Result<Vec<u64>, Memory>
    ensures { IfOk result (λ found. (test : ℕ → Bool) → list_any test found.items ≡ part_has test (part_of part.now)) }
{
    let mut found = term_variables(alloc, &part.term)?;
    found.push(part.at)?;
    Ok(found)
}

/// Whether the part speaks of a variable that is not kept.
fn part_has_dropped(alloc: Global, keep: &[u64], part: &Part) -> Result<bool, Memory>
    ensures { IfOk result (λ has. has ≡ part_has (is_dropped keep.now) (part_of part.now)) }
{
    let variables = part_variables(alloc, part)?;
    Ok(has_dropped(keep, variables.as_slice()))
}

/// Whether the part speaks of a number that is not kept.
pub(crate) fn part_has_dropped_number(
    alloc: Global,
    keep: &[u64],
    resolver: &Resolver,
    part: &Part,
) -> Result<bool, Memory>
    ensures { IfOk result (λ has. has ≡ part_has (is_dropped_number (reading resolver.now keep.now)) (part_of part.now)) }
{
    let variables = part_variables(alloc, part)?;
    Ok(has_dropped_number(keep, resolver, variables.as_slice()))
}

/// Whether one of the parts speaks of a number that is not kept.
pub(crate) fn speak_of_dropped(
    alloc: Global,
    keep: &[u64],
    resolver: &Resolver,
    parts: &[Part],
) -> Result<bool, Memory>
    ensures { IfOk result (λ speak. speak ≡ speak_of_dropped (reading resolver.now keep.now) (map part_of parts.now)) }
{
    for part in parts {
        if part_has_dropped_number(alloc, keep, resolver, part)? {
            return Ok(true);
        }
    }
    Ok(false)
}

/// Whether one of the parts speaks of a variable that is not kept.
fn parts_have_dropped(alloc: Global, keep: &[u64], parts: &[Part]) -> Result<bool, Memory>
    ensures { IfOk result (λ has. has ≡ list_any (part_has (is_dropped keep.now)) (map part_of parts.now)) }
{
    for part in parts {
        if part_has_dropped(alloc, keep, part)? {
            return Ok(true);
        }
    }
    Ok(false)
}

/// Whether a variable of the row is not kept.
pub(crate) fn row_has_dropped(keep: &[u64], row: &Row) -> bool
    ensures { result ≡ row_has (is_dropped keep.now) row.now }
{
    row.coeffs()
        .as_slice()
        .iter()
        .any(|k| is_dropped(keep, k.x))
}

/// Whether a variable of the term is not kept.
fn term_has_dropped(alloc: Global, keep: &[u64], term: &Term) -> Result<bool, Memory>
    ensures { IfOk result (λ has. has ≡ list_any (is_dropped keep.now) (term_vars (tm_of term.now))) }
{
    let variables = term_variables(alloc, term)?;
    Ok(has_dropped(keep, variables.as_slice()))
}

/// Whether a variable of one of the terms is not kept.
fn either_has_dropped(
    alloc: Global,
    keep: &[u64],
    left: &Term,
    right: &Term,
) -> Result<bool, Memory>
    ensures { IfOk result (λ has. has ≡ (list_any (is_dropped keep.now) (term_vars (tm_of left.now)) || list_any (is_dropped keep.now) (term_vars (tm_of right.now)))) }
{
    Ok(term_has_dropped(alloc, keep, left)? || term_has_dropped(alloc, keep, right)?)
}

/// Whether a part of the disequation of these terms speaks of a variable that is not kept.
fn sides_have_dropped(
    alloc: Global,
    keep: &[u64],
    resolver: &Resolver,
    left: &Term,
    right: &Term,
) -> Result<bool, Memory>
    ensures { IfOk result (λ has. has ≡ parts_have (is_dropped keep.now) (parts_in (reading resolver.now keep.now) left.now right.now)) }
{
    match resolved_sides(alloc, left, right, resolver.bindings.as_slice())? {
        None => Ok(false),
        Some(parts) => parts_have_dropped(alloc, keep, parts.as_slice()),
    }
}

/// Whether the constraint speaks of a variable that is not kept.
pub(crate) fn has_dropped_variable(
    alloc: Global,
    keep: &[u64],
    resolver: &Resolver,
    constraint: &Con,
) -> Result<bool, Memory>
    ensures { IfOk result (λ has. has ≡ con_has (reading resolver.now keep.now) (is_dropped keep.now) constraint.now) }
{
    match constraint {
        Con::Eq(left, right) => either_has_dropped(alloc, keep, left, right),
        Con::Neq(left, right) => sides_have_dropped(alloc, keep, resolver, left, right),
        Con::NotShape(x, _, _) => Ok(is_dropped(keep, *x)),
        Con::Num(term) | Con::NotNum(term) => term_has_dropped(alloc, keep, term),
        Con::Row(row) => Ok(row_has_dropped(keep, row)),
    }
}
