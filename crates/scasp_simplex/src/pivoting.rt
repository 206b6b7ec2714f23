//! Pivots: a basic variable changes places with another.
use crate::combination::{Combination, Term};
use crate::form::{Column, Form, Line, count_in, count_out, value_by};
use crate::stop::Stop;
use crate::value::Value;
use crate::whole::{negation, quotient};
use std::alloc::Global;

/// Gives the basic variable of a line the value, which is times the unit, and makes it the column, whose variable
/// becomes basic in the last line.
pub(crate) fn pivot(
    alloc: Global,
    form: &mut Form,
    at: usize,
    column: usize,
    value: &Value,
) -> Result<(), Stop> {
    if at >= form.lines.len() || column >= form.columns.len() {
        return Err(Stop::Lost);
    }
    let Line { basic, sum, .. } = form.lines.swap_remove(at);
    let Column {
        unknown: entering,
        uses,
        ..
    } = form.columns[column];
    form.columns[column] = Column {
        unknown: basic,
        value: *value,
        uses,
    };
    let sum = solved(sum, column)?;
    for line in form.lines.iter_mut() {
        replace(alloc, form.columns.as_mut_slice(), line, column, &sum)?;
    }
    let value = value_by(form.columns.as_slice(), &sum)?;
    form.lines.push(Line {
        basic: entering,
        sum,
        value,
    })?;
    Ok(())
}

/// The column's variable by the others and the basic variable, which takes its column.
fn solved(sum: Combination, column: usize) -> Result<Combination, Stop> {
    let times = sum.times(column);
    let Combination { scale, mut terms } = sum;
    let sign = if times < 0 { -1 } else { 1 };
    for term in terms.iter_mut() {
        *term = turned(term, column, scale, sign)?;
    }
    let scale = quotient(times, sign)?;
    Ok(Combination { scale, terms })
}

/// The term on the other side, times the sign.
fn turned(term: &Term, column: usize, scale: i128, sign: i128) -> Result<Term, Stop> {
    let times = if term.column == column {
        quotient(scale, sign)?
    } else {
        negation(quotient(term.times, sign)?)?
    };
    Ok(Term {
        column: term.column,
        times,
    })
}

/// Replaces the variable of the column by the sum.
fn replace(
    alloc: Global,
    columns: &mut [Column],
    line: &mut Line,
    column: usize,
    by: &Combination,
) -> Result<(), Stop> {
    let times = line.sum.times(column);
    if times == 0 {
        return Ok(());
    }
    let sum = line.sum.replaced(alloc, Some(column), times, by)?;
    count_out(columns, &line.sum);
    count_in(columns, &sum);
    line.value = value_by(columns, &sum)?;
    line.sum = sum;
    Ok(())
}
