//! Short lists that are asked in place of whole ones.
ghost use Rattle.std.specs.Prelude.{◌≡◌, ◌++◌, [], ◌∷◌, IfOk, OnOk, not};
ghost use Rattle.std.specs.List.{list_all, list_any};
ghost use Rattle.scasp_hint.specs.AskedRows.{RowsNormal};
ghost use Rattle.scasp_store.specs.Inside.Asking.{counts_all, is_askable, is_counted, is_equation, is_flat, is_readable, is_row, is_sorted, is_told, one_var, read_by, told_by, told_var};
ghost use Rattle.scasp_store.specs.Inside.Open.{has_values};
ghost use Rattle.scasp_syntax.specs.Constraints.{is_number};
ghost use Rattle.scasp_syntax.specs.Values.{under};
ghost use Rattle.scasp_syntax.specs.View.{tm_of};
ghost use Rattle.scasp_unify.specs.Solving.{sub_of};
ghost use Rattle.scasp_unify.specs.TermFailures.{is_compound};

use scasp_bound::Bound;
use scasp_list::Memory;
use scasp_num::Coeff;
use scasp_readings::{is_among, is_unreplaced, read_con};
use scasp_syntax::{Con, Cons, Term, VarList};
use std::alloc::Global;

// ---- kinds of constraints

fn is_row(constraint: &Con) -> bool
    ensures { result ≡ is_row constraint.now }
{
    match constraint {
        Con::Row(_) => true,
        Con::Eq(_, _) | Con::Neq(_, _) | Con::NotShape(_, _, _) | Con::Num(_) | Con::NotNum(_) => {
            false
        }
    }
}

fn is_equation(constraint: &Con) -> bool
    ensures { result ≡ is_equation constraint.now }
{
    match constraint {
        Con::Eq(_, _) => true,
        Con::Row(_) | Con::Neq(_, _) | Con::NotShape(_, _, _) | Con::Num(_) | Con::NotNum(_) => {
            false
        }
    }
}

pub(crate) fn has_row(list: &[Con]) -> bool
    ensures { result ≡ list_any is_row list.now }
{
    list.iter().any(is_row)
}

fn has_equation(list: &[Con]) -> bool
    ensures { result ≡ list_any is_equation list.now }
{
    list.iter().any(is_equation)
}

// ---- rows

/// Whether each variable of the row stands for a number.
pub(crate) fn are_numbers(alloc: Global, bound: &Bound, coeffs: &[Coeff]) -> Result<bool, Memory>
    ensures { IfOk result (λ answer. answer ≡ list_all (λ k. is_number (sub_of bound.now.now k.x)) coeffs.now) }
{
    for coeff in coeffs {
        match bound.read(alloc, &Term::Var(coeff.x))? {
            Term::Num(_) => {}
            Term::Var(_) | Term::App(_, _) => return Ok(false),
        }
    }
    Ok(true)
}

/// Whether no variable of the row stands for a name with arguments.
fn are_flat(alloc: Global, bound: &Bound, coeffs: &[Coeff]) -> Result<bool, Memory>
    ensures { IfOk result (λ answer. answer ≡ list_all (λ k. not (is_compound (sub_of bound.now.now k.x))) coeffs.now) }
{
    for coeff in coeffs {
        match bound.read(alloc, &Term::Var(coeff.x))? {
            Term::App(_, _) => return Ok(false),
            Term::Num(_) | Term::Var(_) => {}
        }
    }
    Ok(true)
}

/// Whether the variable stands for a number, or for one of the variables that are said to be numbers.
fn is_told(alloc: Global, bound: &Bound, told: &[u64], x: u64) -> Result<bool, Memory>
    ensures { IfOk result (λ answer. answer ≡ is_told told.now (sub_of bound.now.now x)) }
{
    match bound.read(alloc, &Term::Var(x))? {
        Term::Num(_) => Ok(true),
        Term::Var(y) => Ok(is_among(y, told)),
        Term::App(_, _) => Ok(false),
    }
}

/// Whether each variable of the row counts as a number.
pub(crate) fn are_told(
    alloc: Global,
    bound: &Bound,
    told: &[u64],
    coeffs: &[Coeff],
) -> Result<bool, Memory>
    ensures { IfOk result (λ answer. answer ≡ list_all (λ k. is_told told.now (sub_of bound.now.now k.x)) coeffs.now) }
{
    for coeff in coeffs {
        if !is_told(alloc, bound, told, coeff.x)? {
            return Ok(false);
        }
    }
    Ok(true)
}

// ---- constraints

/// Whether the constraint is no equation, and a row has numbers alone.
pub(crate) fn has_values(alloc: Global, bound: &Bound, constraint: &Con) -> Result<bool, Memory>
    ensures { IfOk result (λ answer. answer ≡ has_values (sub_of bound.now.now) constraint.now) }
{
    match constraint {
        Con::Row(row) => are_numbers(alloc, bound, row.coeffs().as_slice()),
        Con::Eq(_, _) => Ok(false),
        Con::Neq(_, _) | Con::NotShape(_, _, _) | Con::Num(_) | Con::NotNum(_) => Ok(true),
    }
}

fn is_flat(alloc: Global, bound: &Bound, constraint: &Con) -> Result<bool, Memory>
    ensures { IfOk result (λ answer. answer ≡ is_flat (sub_of bound.now.now) constraint.now) }
{
    match constraint {
        Con::Row(row) => are_flat(alloc, bound, row.coeffs().as_slice()),
        Con::Eq(_, _) | Con::Neq(_, _) | Con::NotShape(_, _, _) | Con::Num(_) | Con::NotNum(_) => {
            Ok(true)
        }
    }
}

/// Whether the constraint says the same where it is written as the bindings read it.
pub(crate) fn is_readable(alloc: Global, bound: &Bound, constraint: &Con) -> Result<bool, Memory>
    ensures { IfOk result (λ answer. answer ≡ is_readable (sub_of bound.now.now) constraint.now) }
{
    if is_unreplaced(alloc, bound, constraint)? {
        return Ok(false);
    }
    is_flat(alloc, bound, constraint)
}

fn is_counted(alloc: Global, bound: &Bound, told: &[u64], constraint: &Con) -> Result<bool, Memory>
    ensures { IfOk result (λ answer. answer ≡ is_counted (sub_of bound.now.now) told.now constraint.now) }
{
    match constraint {
        Con::Row(row) => are_told(alloc, bound, told, row.coeffs().as_slice()),
        Con::Eq(_, _) | Con::Neq(_, _) | Con::NotShape(_, _, _) | Con::Num(_) | Con::NotNum(_) => {
            Ok(true)
        }
    }
}

// ---- what is said of variables

/// Puts what the term reads as behind the others, if that is a variable.
fn push_var(alloc: Global, bound: &Bound, term: &Term, found: &mut VarList) -> Result<(), Memory>
    ensures { OnOk result (found.new ≡ found.old ++ one_var (under (sub_of bound.now.now) (tm_of term.now))) }
{
    match bound.read(alloc, term)? {
        Term::Var(y) => found.push(y),
        Term::Num(_) | Term::App(_, _) => Ok(()),
    }
}

/// Puts the variable of which the constraint says that it is a number behind the others, if there is one.
fn push_told(
    alloc: Global,
    bound: &Bound,
    constraint: &Con,
    found: &mut VarList,
) -> Result<(), Memory>
    ensures { OnOk result (found.new ≡ found.old ++ told_var (sub_of bound.now.now) constraint.now) }
{
    match constraint {
        Con::Num(term) => push_var(alloc, bound, term, found),
        Con::Row(_) | Con::Eq(_, _) | Con::Neq(_, _) | Con::NotShape(_, _, _) | Con::NotNum(_) => {
            Ok(())
        }
    }
}

/// The variables of which the list says that they are numbers.
pub(crate) fn told_by(alloc: Global, bound: &Bound, list: &[Con]) -> Result<VarList, Memory>
    ensures { IfOk result (λ found. found ≡ told_by (sub_of bound.now.now) list.now) }
{
    let mut found = VarList::new(alloc);
    for constraint in list {
        push_told(alloc, bound, constraint, &mut found)?;
    }
    Ok(found)
}

// ---- lists

/// What is read of a row tells that it is in normal form.
pub(crate) fn note_row(constraint: &Con)
    ensures { RowsNormal (constraint.now ∷ []) }
{
    if let Con::Row(row) = constraint {
        let _op = row.op();
    }
}

/// Notes that each row of the list is in normal form.
pub(crate) fn note_rows(list: &[Con])
    ensures { RowsNormal list.now }
{
    for constraint in list {
        note_row(constraint);
    }
}

pub(crate) fn are_readable(alloc: Global, bound: &Bound, list: &[Con]) -> Result<bool, Memory>
    ensures { IfOk result (λ answer. answer ≡ list_all (is_readable (sub_of bound.now.now)) list.now) }
{
    for constraint in list {
        if !is_readable(alloc, bound, constraint)? {
            return Ok(false);
        }
    }
    Ok(true)
}

fn are_counted(alloc: Global, bound: &Bound, told: &[u64], list: &[Con]) -> Result<bool, Memory>
    ensures { IfOk result (λ answer. answer ≡ list_all (is_counted (sub_of bound.now.now) told.now) list.now) }
{
    for constraint in list {
        if !is_counted(alloc, bound, told, constraint)? {
            return Ok(false);
        }
    }
    Ok(true)
}

/// Whether no equation is in the list, and the variables of each row count as numbers.
pub(crate) fn counts_all(alloc: Global, bound: &Bound, list: &[Con]) -> Result<bool, Memory>
    ensures { IfOk result (λ answer. answer ≡ counts_all (sub_of bound.now.now) list.now) }
{
    if has_equation(list) {
        return Ok(false);
    }
    let told = told_by(alloc, bound, list)?;
    are_counted(alloc, bound, told.as_slice(), list)
}

/// The list as the bindings read it.
pub(crate) fn read_all(alloc: Global, bound: &Bound, list: &[Con]) -> Result<Cons, Memory>
    ensures { IfOk result (λ made. made ≡ read_by (sub_of bound.now.now) list.now) }
{
    let mut made = Cons::new(alloc);
    for constraint in list {
        made.push(read_con(alloc, bound, constraint)?)?;
    }
    Ok(made)
}

/// Whether the list is among those that are decided, as it stands and as it reads.
fn is_sorted(alloc: Global, bound: &Bound, list: &[Con], read: &[Con]) -> Result<bool, Memory>
    requires { read.now ≡ read_by (sub_of bound.now.now) list.now }
    ensures { IfOk result (λ answer. answer ≡ is_sorted (sub_of bound.now.now) list.now) }
{
    if !has_row(list) {
        return Ok(true);
    }
    if !counts_all(alloc, bound, list)? {
        return Ok(false);
    }
    let none = Bound::new(alloc);
    counts_all(alloc, &none, read)
}

/// Whether the list may be asked as it reads.
pub(crate) fn is_askable(
    alloc: Global,
    bound: &Bound,
    list: &[Con],
    read: &[Con],
) -> Result<bool, Memory>
    requires { read.now ≡ read_by (sub_of bound.now.now) list.now }
    ensures { IfOk result (λ answer. answer ≡ is_askable (sub_of bound.now.now) list.now) }
{
    if !are_readable(alloc, bound, list)? {
        return Ok(false);
    }
    is_sorted(alloc, bound, list, read)
}
