//! Numbers that the rows of a list leave to single variables, put into its other rows before the list is asked.
ghost use Rattle.std.specs.Prelude.{◌≡◌, ◌<◌, ◌++◌, [], ◌∷◌, IfOk, IfSome, List, OnOk, Some, length, slice_get, true};
ghost use Rattle.scasp_hint.specs.Satisfying.{sat};
ghost use Rattle.scasp_law_parts.specs.Bound.{Triangular};
ghost use Rattle.scasp_store.specs.Inside.Asking.{told_by};
ghost use Rattle.scasp_store.specs.Inside.Fixing.{AreFixed, IsOnly, Leaves, Says, counts_alone, left_by, one_left};
ghost use Rattle.scasp_syntax.specs.Tm.{var};
ghost use Rattle.scasp_syntax.specs.declared.con.Con.{Con as ThisCon};
ghost use Rattle.scasp_syntax.specs.declared.con.Con.TheVariants as con;
ghost use Rattle.scasp_unify.specs.Solving.{sub_of};
ghost use Rattle.scasp_unify.specs.Sorted.{is_typed};

use crate::asking::{are_readable, counts_all, has_row, is_readable, note_row, note_rows, told_by};
use crate::opening::is_new;
use scasp_bound::Bound;
use scasp_hint::is_satisfiable;
use scasp_list::Memory;
use scasp_num::{Coeff, Op, Rat, Row};
use scasp_readings::{is_among, read_con};
use scasp_rows::LinErr;
use scasp_search_terms::forms::holds_always;
use scasp_syntax::{Con, Cons, Term};
use scasp_unify::Binding;
use std::alloc::Global;

// ---- what one constraint leaves

/// The coefficient of a list that has no other.
fn alone(coeffs: &[Coeff]) -> Option<Coeff>
    ensures { IfSome result (λ k. coeffs.now ≡ k ∷ []) }
{
    match coeffs.split_first() {
        Some((coeff, rest)) => { if rest.is_empty() { Some(*coeff) } else { None } }
        None => None,
    }
}

/// The coefficient of the variable of a row that is an equation of one variable.
fn only_coeff(row: &Row) -> Option<Coeff>
    ensures { IfSome result (IsOnly row.now) }
{
    match row.op() {
        Op::Eq => alone(row.coeffs().as_slice()),
        Op::Lt | Op::Le | Op::Ne => None,
    }
}

/// What the row leaves to its variable, if it is an equation of one variable; None also where that overflows.
fn only_in(row: &Row) -> Option<Binding>
    ensures { IfSome result (Leaves [] (con.Row row.now)) }
{
    let coeff = only_coeff(row)?;
    if coeff.c == 0 {
        return None;
    }
    match Rat::new(-row.constant(), coeff.c) {
        Ok(value) => Some(Binding {
            x: coeff.x,
            term: Term::Num(value),
        }),
        Err(_) => None,
    }
}

/// What the constraint leaves to a variable, if it is an equation of numbers with one variable.
fn only_of(constraint: &Con) -> Option<Binding>
    ensures { IfSome result (Leaves [] constraint.now) }
{
    match constraint {
        Con::Row(row) => only_in(row),
        Con::Eq(_, _) | Con::Neq(_, _) | Con::NotShape(_, _, _) | Con::Num(_) | Con::NotNum(_) => {
            None
        }
    }
}

/// Whether the constraint is an equation of numbers with one variable.
fn is_only(constraint: &Con) -> bool {
    match constraint {
        Con::Row(row) => only_coeff(row).is_some(),
        Con::Eq(_, _) | Con::Neq(_, _) | Con::NotShape(_, _, _) | Con::Num(_) | Con::NotNum(_) => {
            false
        }
    }
}

/// Whether the constraint is an equation of numbers.
fn is_equal(constraint: &Con) -> bool {
    match constraint {
        Con::Row(row) => match row.op() {
            Op::Eq => true,
            Op::Lt | Op::Le | Op::Ne => false,
        },
        Con::Eq(_, _) | Con::Neq(_, _) | Con::NotShape(_, _, _) | Con::Num(_) | Con::NotNum(_) => {
            false
        }
    }
}

/// What the constraint, with the numbers put into it, leaves to a variable, if it is an equation of one variable then.
#[tactic(auto, using(crate::proofs::FixLemmas::leaves_read))]
pub(crate) fn left_over(
    alloc: Global,
    fixed: &Bound,
    constraint: &Con,
) -> Result<Option<Binding>, Memory>
    ensures { Triangular fixed.now.now → IfOk result (λ found. IfSome found (Leaves fixed.now.now constraint.now)) }
{
    note_row(constraint);
    if !is_equal(constraint) {
        return Ok(None);
    }
    if !is_readable(alloc, fixed, constraint)? {
        return Ok(None);
    }
    let read = read_con(alloc, fixed, constraint)?;
    Ok(only_of(&read))
}

// ---- what the list leaves

/// The variable is this number, if it is said to be one and is none of those before.
fn fix(alloc: Global, told: &[u64], binding: Binding, fixed: &mut Bound) -> Result<(), Memory>
    ensures { OnOk result ((cs : List ThisCon) (c : ThisCon) → Leaves fixed.old.now c binding → Says cs c → told.now ≡ told_by var cs → AreFixed cs fixed.old.now → AreFixed cs fixed.new.now) }
{
    if !is_among(binding.x, told) {
        return Ok(());
    }
    if !is_new(alloc, fixed, &binding)? {
        return Ok(());
    }
    fixed.push(binding)?;
    Ok(())
}

/// Fixes what the constraint leaves to a variable.
fn fix_by(alloc: Global, told: &[u64], constraint: &Con, fixed: &mut Bound) -> Result<(), Memory>
    ensures { OnOk result ((cs : List ThisCon) → Says cs constraint.now → told.now ≡ told_by var cs → AreFixed cs fixed.old.now → AreFixed cs fixed.new.now) }
{
    match left_over(alloc, fixed, constraint)? {
        Some(binding) => fix(alloc, told, binding, fixed),
        None => Ok(()),
    }
}

/// The constraint at the place.
fn con_at(list: &[Con], at: usize) -> &Con
    requires { at < length list.now }
    ensures { Some result.now ≡ slice_get list.now at }
{
    &list[at]
}

/// Fixes what the constraint at the place leaves to a variable.
fn fix_at(
    alloc: Global,
    told: &[u64],
    list: &[Con],
    at: usize,
    fixed: &mut Bound,
) -> Result<(), Memory>
    requires { at < length list.now }
    ensures { OnOk result (told.now ≡ told_by var list.now → AreFixed list.now fixed.old.now → AreFixed list.now fixed.new.now) }
{
    fix_by(alloc, told, con_at(list, at), fixed)?;
    Ok(())
}

/// The variables to which the rows of the list leave one number, one row after the other.
#[tactic(auto, using(crate::proofs::FixLemmas::none_fixed))]
fn fix_all(alloc: Global, told: &[u64], list: &[Con]) -> Result<Bound, Memory>
    requires { told.now ≡ told_by var list.now }
    ensures { IfOk result (λ fixed. AreFixed list.now fixed.now) }
{
    let mut fixed = Bound::new(alloc);
    let mut at = 0;
    while at < list.len() {
        fix_at(alloc, told, list, at, &mut fixed)?;
        at += 1;
    }
    Ok(fixed)
}

// ---- what is left of the list

/// Puts the constraint behind those of a list, unless it holds whatever its variables stand for.
fn push_left(alloc: Global, constraint: Con, list: &mut Cons) -> Result<(), Memory>
    ensures { OnOk result (list.new ≡ list.old ++ one_left constraint) }
{
    if holds_always(alloc, &constraint)? {
        return Ok(());
    }
    list.push(constraint)
}

/// The list with the numbers put into it, without what holds then in any case.
fn left_to(alloc: Global, fixed: &Bound, list: &[Con]) -> Result<Cons, Memory>
    ensures { IfOk result (λ made. made ≡ left_by (sub_of fixed.now.now) list.now) }
{
    let mut made = Cons::new(alloc);
    for constraint in list {
        push_left(alloc, read_con(alloc, fixed, constraint)?, &mut made)?;
    }
    Ok(made)
}

/// Whether the list is among those that are decided.
fn counts_alone(alloc: Global, list: &[Con]) -> Result<bool, Memory>
    ensures { IfOk result (λ answer. answer ≡ counts_alone list.now) }
{
    if !has_row(list) {
        return Ok(true);
    }
    let none = Bound::new(alloc);
    counts_all(alloc, &none, list)
}

// ---- the question

/// Whether the list passes the test; None where its arithmetic overflows.
fn tested(alloc: Global, list: &[Con]) -> Result<Option<bool>, Memory>
    ensures { IfOk result (λ found. IfSome found (λ answer. answer ≡ sat list.now)) }
{
    match is_satisfiable(alloc, list) {
        Ok(answer) => Ok(Some(answer)),
        Err(LinErr::Overflow) => Ok(None),
        Err(LinErr::Memory) => Err(Memory),
    }
}

/// As `tested_by`, where these numbers are left to variables.
fn tested_with(alloc: Global, fixed: &Bound, list: &[Con]) -> Result<Option<bool>, Memory>
    requires { AreFixed list.now fixed.now.now }
    ensures { is_typed list.now ≡ true → IfOk result (λ found. IfSome found (λ answer. answer ≡ sat list.now)) }
{
    note_rows(list);
    if !are_readable(alloc, fixed, list)? {
        return tested(alloc, list);
    }
    let left = left_to(alloc, fixed, list)?;
    if !counts_alone(alloc, left.as_slice())? {
        return tested(alloc, list);
    }
    tested(alloc, left.as_slice())
}

/// Whether the list passes the test, in which the variables of each row count as numbers; None where the arithmetic
/// overflows.
pub(crate) fn tested_by(alloc: Global, list: &[Con]) -> Result<Option<bool>, Memory>
    ensures { is_typed list.now ≡ true → IfOk result (λ found. IfSome found (λ answer. answer ≡ sat list.now)) }
{
    if !list.iter().any(is_only) {
        return tested(alloc, list);
    }
    let none = Bound::new(alloc);
    let told = told_by(alloc, &none, list)?;
    let fixed = fix_all(alloc, told.as_slice(), list)?;
    tested_with(alloc, &fixed, list)
}
