//! Rows that go: their bounds are dropped, and their variables made basic, so that their lines can go.
use crate::form::{Form, count_out};
use crate::pivoting::pivot;
use crate::stop::Stop;
use crate::value::Value;
use crate::whole::{common_divisor, product, quotient};
use std::alloc::Global;

/// Takes the rows out of the form that are not among the first that it is to stand for.
pub(crate) fn drop_rows(alloc: Global, form: &mut Form) -> Result<(), Stop> {
    drop_lines(form);
    for _ in 0..form.columns.len() {
        match dead_column(form) {
            Some(column) => drop_column(alloc, form, column)?,
            None => return Ok(()),
        }
    }
    Ok(())
}

/// Takes the lines of dead variables away.
fn drop_lines(form: &mut Form) {
    let rows = form.rows;
    for line in form.lines.iter() {
        if line.basic.is_dead(rows) {
            count_out(form.columns.as_mut_slice(), &line.sum);
        }
    }
    form.lines.retain(|line| !line.basic.is_dead(rows));
}

/// The first column of a dead variable.
fn dead_column(form: &Form) -> Option<usize> {
    for (place, column) in form.columns.iter().enumerate() {
        if column.unknown.is_dead(form.rows) {
            return Some(place);
        }
    }
    None
}

/// Divides the unit and all values by what they have in common.
fn reduce_unit(form: &mut Form) -> Result<(), Stop> {
    let mut shared = form.unit;
    for column in form.columns.as_slice() {
        if shared == 1 {
            return Ok(());
        }
        shared = common_divisor(shared, column.value.real)?;
        shared = common_divisor(shared, column.value.tiny)?;
    }
    form.unit = quotient(form.unit, shared)?;
    for column in form.columns.iter_mut() {
        column.value = column.value.divided(shared)?;
    }
    for line in form.lines.iter_mut() {
        line.value = line.value.divided(shared)?;
    }
    Ok(())
}

/// Makes the variable of the column basic, and takes its line away. All values stay as they are.
fn drop_column(alloc: Global, form: &mut Form, column: usize) -> Result<(), Stop> {
    let Some(at) = line_with(form, column) else {
        return Err(Stop::Lost);
    };
    reduce_unit(form)?;
    let value = value_of(form, at)?;
    pivot(alloc, form, at, column, &value)?;
    if let Some(line) = form.lines.pop() {
        count_out(form.columns.as_mut_slice(), &line.sum);
    }
    Ok(())
}

/// The line with the fewest terms that has the column's variable.
fn line_with(form: &Form, column: usize) -> Option<usize> {
    let mut found: Option<(usize, usize)> = None;
    for (at, line) in form.lines.iter().enumerate() {
        if line.sum.times(column) == 0 {
            continue;
        }
        let count = line.sum.terms.len();
        found = match found {
            Some((other, least)) if least <= count => Some((other, least)),
            _ => Some((at, count)),
        };
    }
    found.map(|(at, _)| at)
}

/// The value of the line's basic variable times the unit, which is multiplied so that it is whole.
fn value_of(form: &mut Form, at: usize) -> Result<Value, Stop> {
    let Some(line) = form.lines.get(at) else {
        return Err(Stop::Lost);
    };
    let value = line.value;
    let scale = line.sum.scale;
    let shared = common_divisor(common_divisor(scale, value.real)?, value.tiny)?;
    multiply_unit(form, quotient(scale, shared)?)?;
    value.divided(shared)
}

/// Multiplies the unit, and with it all values.
fn multiply_unit(form: &mut Form, by: i128) -> Result<(), Stop> {
    if by == 1 {
        return Ok(());
    }
    form.unit = product(form.unit, by)?;
    for column in form.columns.iter_mut() {
        column.value = column.value.times(by)?;
    }
    for line in form.lines.iter_mut() {
        line.value = line.value.times(by)?;
    }
    Ok(())
}
