//! Rows that come: one more line in the present basis.
use crate::combination::{Combination, Term};
use crate::form::{Bound, Column, Form, Line, Role, Unknown, count_in, value_by};
use crate::stop::Stop;
use crate::value::Value;
use crate::whole::{negation, product};
use scasp_num::{Op, Row};
use std::alloc::Global;

/// Puts the rows behind those that the form stands for into it.
pub(crate) fn add_rows(alloc: Global, form: &mut Form, rows: &[Row]) -> Result<(), Stop> {
    for (place, row) in rows.iter().enumerate() {
        if place >= form.rows {
            add_row(alloc, form, place, row)?;
        }
    }
    form.rows = rows.len();
    Ok(())
}

/// Makes the sum of the row's terms a basic variable. A row without variables needs none.
fn add_row(alloc: Global, form: &mut Form, place: usize, row: &Row) -> Result<(), Stop> {
    if row.coeffs().is_empty() {
        return Ok(());
    }
    add_columns(form, row)?;
    let sum = sum_of(alloc, form, row)?;
    let value = value_by(form.columns.as_slice(), &sum)?;
    let basic = Unknown {
        order: form.next_order()?,
        role: Role::Sum(place),
        bound: Some(bound_of(row)?),
    };
    count_in(form.columns.as_mut_slice(), &sum);
    form.lines.push(Line { basic, sum, value })?;
    Ok(())
}

/// Makes each variable of the row that the form lacks a column.
fn add_columns(form: &mut Form, row: &Row) -> Result<(), Stop> {
    for k in row.coeffs().as_slice() {
        if !has_variable(form, k.x) {
            add_column(form, k.x)?;
        }
    }
    Ok(())
}

fn has_variable(form: &Form, x: u64) -> bool {
    for column in form.columns.as_slice() {
        if column.unknown.is_given(x) {
            return true;
        }
    }
    for line in form.lines.as_slice() {
        if line.basic.is_given(x) {
            return true;
        }
    }
    false
}

/// A new variable, with value 0.
fn add_column(form: &mut Form, x: u64) -> Result<(), Stop> {
    let unknown = Unknown {
        order: form.next_order()?,
        role: Role::Given(x),
        bound: None,
    };
    form.columns.push(Column {
        unknown,
        value: Value::zero(),
        uses: 0,
    })?;
    Ok(())
}

/// The row's sum in terms of the columns.
fn sum_of(alloc: Global, form: &Form, row: &Row) -> Result<Combination, Stop> {
    let terms = own_terms(alloc, form.columns.as_slice(), row)?;
    let mut sum = Combination { scale: 1, terms };
    for line in form.lines.as_slice() {
        let c = line.basic.coefficient_in(row);
        if c != 0 {
            sum = sum.replaced(alloc, None, product(c, sum.scale)?, &line.sum)?;
        }
    }
    Ok(sum)
}

/// The terms of the row whose variables have columns.
fn own_terms(alloc: Global, columns: &[Column], row: &Row) -> Result<Vec<Term>, Stop> {
    let mut terms = Vec::new(alloc);
    for (place, column) in columns.iter().enumerate() {
        let times = column.unknown.coefficient_in(row);
        if times != 0 {
            terms.push(Term {
                column: place,
                times,
            })?;
        }
    }
    Ok(terms)
}

/// What the sum of the row's terms may be.
fn bound_of(row: &Row) -> Result<Bound, Stop> {
    let tiny = match row.op() {
        Op::Lt => -1,
        Op::Eq | Op::Le | Op::Ne => 0,
    };
    let real = negation(row.constant())?;
    let is_exact = match row.op() {
        Op::Eq => true,
        Op::Lt | Op::Le | Op::Ne => false,
    };
    Ok(Bound {
        most: Value { real, tiny },
        is_exact,
    })
}
