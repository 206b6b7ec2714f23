//! What follows from a list of constraints.
ghost use Rattle.std.specs.Prelude.{◌≡◌, ◌++◌, IfOk, OnOk, nat_eq};
ghost use Rattle.std.specs.List.{list_all, list_any};
ghost use Rattle.scasp_shorten.specs.Following.{follows, has_negation, is_asked, is_number_by, is_row_of, is_test_of, is_variable, questions, tells_number};

use scasp_hint::find;
use scasp_list::Memory;
use scasp_num::Row;
use scasp_rows::LinErr;
use scasp_search_terms::forms::negated;
use scasp_syntax::{Con, Cons, DeepCopy, Term};
use std::alloc::Global;

/// Whether the term is this variable.
fn is_variable(x: u64, term: &Term) -> bool
    ensures { result ≡ is_variable x term.now }
{
    match term {
        Term::Var(y) => x == *y,
        Term::Num(_) | Term::App(_, _) => false,
    }
}

/// Whether the row has the variable.
pub(crate) fn has_variable(x: u64, row: &Row) -> bool
    ensures { result ≡ list_any (λ k. nat_eq x k.x) row.now.coeffs }
{
    row.coeffs().as_slice().iter().any(|k| x == k.x)
}

/// Whether the constraint is the test that the variable is a number.
fn is_test_of(x: u64, constraint: &Con) -> bool
    ensures { result ≡ is_test_of x constraint.now }
{
    match constraint {
        Con::Num(term) => is_variable(x, term),
        Con::Eq(_, _) | Con::Neq(_, _) | Con::NotShape(_, _, _) | Con::NotNum(_) | Con::Row(_) => {
            false
        }
    }
}

/// Whether the constraint is a row with the variable.
fn is_row_of(x: u64, constraint: &Con) -> bool
    ensures { result ≡ is_row_of x constraint.now }
{
    match constraint {
        Con::Row(row) => has_variable(x, row),
        Con::Eq(_, _) | Con::Neq(_, _) | Con::NotShape(_, _, _) | Con::Num(_) | Con::NotNum(_) => {
            false
        }
    }
}

/// Whether some row of the list has the variable.
pub fn has_row_of(list: &[Con], x: u64) -> bool
    ensures { result ≡ list_any (is_row_of x) list.now }
{
    list.iter().any(|constraint| is_row_of(x, constraint))
}

/// Whether the list has the test that the variable is a number.
fn has_test_of(list: &[Con], x: u64) -> bool
    ensures { result ≡ list_any (is_test_of x) list.now }
{
    list.iter().any(|constraint| is_test_of(x, constraint))
}

/// Whether the list tells that the variable is a number.
pub(crate) fn tells_number(list: &[Con], x: u64) -> bool
    ensures { result ≡ tells_number list.now x }
{
    has_test_of(list, x) || has_row_of(list, x)
}

/// Whether the list tells that each variable of the row is a number.
pub(crate) fn tells_numbers(list: &[Con], row: &Row) -> bool
    ensures { result ≡ list_all (λ k. tells_number list.now k.x) row.now.coeffs }
{
    row.coeffs()
        .as_slice()
        .iter()
        .all(|k| tells_number(list, k.x))
}

/// Whether the list tells that the term is a number.
pub(crate) fn is_number_by(list: &[Con], term: &Term) -> bool
    ensures { result ≡ is_number_by list.now term.now }
{
    match term {
        Term::Var(x) => tells_number(list, *x),
        Term::Num(_) => true,
        Term::App(_, _) => false,
    }
}

/// Puts copies of constraints behind the others.
pub(crate) fn push_copies(alloc: Global, made: &mut Cons, list: &[Con]) -> Result<(), Memory>
    ensures { OnOk result (made.new ≡ made.old ++ list.now) }
{
    for constraint in list {
        made.push(constraint.copy(alloc)?)?;
    }
    Ok(())
}

/// Whether a question is asked about the constraint.
fn has_negation(constraint: &Con) -> bool
    ensures { result ≡ has_negation constraint.now }
{
    match constraint {
        Con::Eq(_, _) | Con::Neq(_, _) | Con::NotNum(_) | Con::Row(_) => true,
        Con::NotShape(_, _, _) | Con::Num(_) => false,
    }
}

/// So many questions the list is worth.
pub(crate) fn questions(list: &[Con]) -> usize
    ensures { result ≡ questions list.now }
{
    let mut count = 0usize;
    for constraint in list {
        if has_negation(constraint) {
            count += 1;
        }
    }
    count
}

/// Whether a hint shows that the list has no valuation with the negation of the constraint.
fn is_asked(alloc: Global, list: &[Con], constraint: &Con) -> Result<bool, Memory>
    ensures { IfOk result (λ is. is ≡ is_asked list.now constraint.now) }
{
    let mut asked = Cons::new(alloc);
    push_copies(alloc, &mut asked, list)?;
    asked.push(negated(alloc, 0, constraint)?)?;
    match find(alloc, asked.as_slice()) {
        Ok(Some(_)) => Ok(true),
        Ok(None) | Err(LinErr::Overflow) => Ok(false),
        Err(LinErr::Memory) => Err(Memory),
    }
}

/// Whether the list tells the constraint, by one question at most: a hint shows that with its negation the list has no valuation, and the list
/// tells that the variables of a row are numbers. Not so where what is asked for the hint overflows.
pub fn follows(alloc: Global, list: &[Con], constraint: &Con) -> Result<bool, Memory>
    ensures { IfOk result (λ is. is ≡ follows list.now constraint.now) }
{
    match constraint {
        Con::Num(term) => Ok(is_number_by(list, term)),
        Con::NotShape(x, _, _) => Ok(tells_number(list, *x)),
        Con::Row(row) => Ok(tells_numbers(list, row) && is_asked(alloc, list, constraint)?),
        Con::Eq(_, _) | Con::Neq(_, _) | Con::NotNum(_) => is_asked(alloc, list, constraint),
    }
}
