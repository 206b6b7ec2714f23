//! The variables of a sample that the rows of lists fix.
ghost use Rattle.std.specs.Prelude.{◌≡◌, ◌++◌, IfOk, OnOk, Some, map};
ghost use Rattle.std.specs.List.{filter, list_all};
ghost use Rattle.scasp_fixed.specs.Fixed.{fixing, gives, is_fixing, is_tight, is_zero_row, number_at, numbers_from, value_of, values_found, values_from};
ghost use Rattle.scasp_syntax.specs.View.{tm_of};
ghost use Rattle.scasp_unify.specs.ResolvedRows.{resolved_row};
ghost use Rattle.scasp_unify.specs.Solving.{sub_of};

use scasp_list::Memory;
use scasp_num::{Op, Rat, Row, RowErr};
use scasp_shorten::{follows, has_row_of};
use scasp_syntax::{Con, ConLists, Cons, DeepCopy, Term};
use scasp_unify::{Binding, resolved_row};
use std::alloc::Global;

/// A list of more constraints fixes no variable.
const MOST_CONSTRAINTS: usize = 32;

/// Puts the number of a sample's term, as that of the variable, behind the others.
fn push_number(x: u64, term: &Term, numbers: &mut Vec<Binding>) -> Result<(), Memory>
    ensures { OnOk result (numbers.new.items ≡ numbers.old.items ++ number_at x (tm_of term.now)) }
{
    match term {
        Term::Num(value) => {
            numbers.push(Binding {
                x,
                term: Term::Num(*value),
            })?;
            Ok(())
        }
        Term::Var(_) | Term::App(_, _) => Ok(()),
    }
}

/// The numbers of the sample.
fn numbers_of(alloc: Global, sample: &[Term]) -> Result<Vec<Binding>, Memory>
    ensures { IfOk result (λ numbers. numbers.items ≡ numbers_from 0 (map tm_of sample.now)) }
{
    let mut numbers = Vec::new(alloc);
    let mut x = 0u64;
    for term in sample {
        push_number(x, term, &mut numbers)?;
        x = x.checked_add(1).ok_or(Memory)?;
    }
    Ok(numbers)
}

/// Whether the row without variables compares 0 with 0.
fn is_zero_row(row: &Row) -> bool
    ensures { result ≡ is_zero_row (Some row.now) }
{
    row.coeffs().as_slice().is_empty() && row.constant() == 0
}

/// Whether both sides of the row are equal with these numbers. They are not told to be where that overflows.
fn is_equal(alloc: Global, numbers: &[Binding], row: &Row) -> Result<bool, Memory>
    ensures { IfOk result (λ is. is ≡ is_zero_row (resolved_row (sub_of numbers.now) row.now)) }
{
    match resolved_row(alloc, row, numbers) {
        Ok(resolved) => Ok(is_zero_row(&resolved)),
        Err(RowErr::Overflow) => Ok(false),
        Err(RowErr::Memory) => Err(Memory),
    }
}

/// Whether the row is `=<`, and both sides are equal with these numbers.
fn is_tight(alloc: Global, numbers: &[Binding], row: &Row) -> Result<bool, Memory>
    ensures { IfOk result (λ is. is ≡ is_tight numbers.now row.now) }
{
    Ok(row.op() == Op::Le && is_equal(alloc, numbers, row)?)
}

/// Whether the constraint is a number test, an equation of numbers, or a row that is tight with these numbers.
fn is_fixing(alloc: Global, numbers: &[Binding], constraint: &Con) -> Result<bool, Memory>
    ensures { IfOk result (λ is. is ≡ is_fixing numbers.now constraint.now) }
{
    match constraint {
        Con::Num(_) => Ok(true),
        Con::Row(row) => Ok(row.op().is_equation() || is_tight(alloc, numbers, row)?),
        Con::Eq(_, _) | Con::Neq(_, _) | Con::NotShape(_, _, _) | Con::NotNum(_) => Ok(false),
    }
}

/// The number tests, equations and tight rows of the list; none of a list that is too long.
fn fixing(alloc: Global, numbers: &[Binding], list: &[Con]) -> Result<Cons, Memory>
    ensures { IfOk result (λ made. made ≡ fixing numbers.now list.now) }
{
    let mut made = Cons::new(alloc);
    if list.len() > MOST_CONSTRAINTS {
        return Ok(made);
    }
    for constraint in list {
        if is_fixing(alloc, numbers, constraint)? {
            made.push(constraint.copy(alloc)?)?;
        }
    }
    Ok(made)
}

/// What fixes variables of each of the lists.
fn fixing_of_each(alloc: Global, numbers: &[Binding], lists: &[Cons]) -> Result<ConLists, Memory>
    ensures { IfOk result (λ made. made ≡ map (fixing numbers.now) lists.now) }
{
    let mut made = ConLists::new(alloc);
    for list in lists {
        made.push(fixing(alloc, numbers, list.as_slice())?)?;
    }
    Ok(made)
}

/// Whether these number tests and rows give the variable this number.
fn gives(alloc: Global, list: &[Con], x: u64, value: &Rat) -> Result<bool, Memory>
    ensures { IfOk result (λ is. is ≡ gives list.now x value.now) }
{
    if !has_row_of(list, x) {
        return Ok(false);
    }
    follows(alloc, list, &Con::Eq(Term::Var(x), Term::Num(*value)))
}

/// Whether each of the lists gives the variable this number.
fn all_give(alloc: Global, lists: &[Cons], x: u64, value: &Rat) -> Result<bool, Memory>
    ensures { IfOk result (λ is. is ≡ list_all (λ cs. gives cs x value.now) lists.now) }
{
    for list in lists {
        if !gives(alloc, list.as_slice(), x, value)? {
            return Ok(false);
        }
    }
    Ok(true)
}

/// Puts the number that the sample has for the variable behind the values, if each of the lists gives it.
fn push_value(
    alloc: Global,
    lists: &[Cons],
    x: u64,
    term: &Term,
    values: &mut Vec<Binding>,
) -> Result<(), Memory>
    ensures { OnOk result (values.new.items ≡ values.old.items ++ value_of lists.now x (tm_of term.now)) }
{
    match term {
        Term::Num(value) => {
            if all_give(alloc, lists, x, value)? {
                values.push(Binding {
                    x,
                    term: Term::Num(*value),
                })?;
            }
            Ok(())
        }
        Term::Var(_) | Term::App(_, _) => Ok(()),
    }
}

/// The values of the sample that each of these lists of number tests and rows gives.
fn values_of(alloc: Global, lists: &[Cons], sample: &[Term]) -> Result<Vec<Binding>, Memory>
    ensures { IfOk result (λ values. values.items ≡ values_from lists.now 0 (map tm_of sample.now)) }
{
    let mut values = Vec::new(alloc);
    let mut x = 0u64;
    for term in sample {
        push_value(alloc, lists, x, term, &mut values)?;
        x = x.checked_add(1).ok_or(Memory)?;
    }
    Ok(values)
}

/// The numbers of the sample that what fixes in each of the lists gives.
pub(crate) fn values_found(
    alloc: Global,
    lists: &[Cons],
    sample: &[Term],
) -> Result<Vec<Binding>, Memory>
    ensures { IfOk result (λ values. values.items ≡ values_found lists.now (map tm_of sample.now)) }
{
    let numbers = numbers_of(alloc, sample)?;
    let fixing = fixing_of_each(alloc, numbers.as_slice(), lists)?;
    values_of(alloc, fixing.as_slice(), sample)
}
