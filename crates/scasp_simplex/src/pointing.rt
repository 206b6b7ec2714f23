//! The point at which a form's variables have their values.
use crate::form::{Form, Role, Unknown};
use crate::point::Point;
use crate::stop::Stop;
use crate::value::Value;
use crate::whole::{common_multiple, fraction, product, quotient, sum};
use scasp_num::{Rat, RatPair};
use std::alloc::Global;
use std::collections::HashMap;

/// The point of the values, with a number for the infinitesimal one.
pub(crate) fn point_of(alloc: Global, form: &Form) -> Result<Point, Stop> {
    let parts = parts_enough(form)?;
    let values = values_with(alloc, form, parts)?;
    over_common(alloc, values.as_slice())
}

/// A number above 0: with one over it for the infinitesimal number all values stay within their bounds.
fn parts_enough(form: &Form) -> Result<i128, Stop> {
    let mut parts: i128 = 1;
    for column in form.columns.as_slice() {
        parts = parts.max(parts_for(&column.unknown, &column.value, form.unit)?);
    }
    for line in form.lines.as_slice() {
        parts = parts.max(parts_for(&line.basic, &line.value, line.per(form.unit)?)?);
    }
    Ok(parts)
}

/// The least such number for a variable, whose value is multiplied so.
fn parts_for(unknown: &Unknown, value: &Value, per: i128) -> Result<i128, Stop> {
    let Some(bound) = &unknown.bound else {
        return Ok(1);
    };
    if value.tiny == 0 && bound.most.tiny == 0 {
        return Ok(1);
    }
    let most = bound.most.times(per)?;
    let gap = most.plus(&value.times(-1)?)?;
    if gap.tiny >= 0 || gap.real <= 0 {
        return Ok(1);
    }
    let whole = quotient(gap.tiny, gap.real)?;
    sum(1, product(whole, -1)?)
}

/// The values of the rows' variables.
fn values_with(alloc: Global, form: &Form, parts: i128) -> Result<Vec<RatPair>, Stop> {
    let mut values = Vec::new(alloc);
    for column in form.columns.as_slice() {
        let value = Over {
            value: column.value,
            per: form.unit,
        };
        push_value(&mut values, &column.unknown, &value, parts)?;
    }
    for line in form.lines.as_slice() {
        let value = Over {
            value: line.value,
            per: line.per(form.unit)?,
        };
        push_value(&mut values, &line.basic, &value, parts)?;
    }
    Ok(values)
}

/// A value, times a number.
#[derive(Clone, Copy)]
struct Over {
    value: Value,
    per: i128,
}

/// Pushes the variable's value, where it is one of the rows'.
fn push_value(
    values: &mut Vec<RatPair>,
    unknown: &Unknown,
    over: &Over,
    parts: i128,
) -> Result<(), Stop> {
    match unknown.role {
        Role::Given(x) => {
            let value = value_of(over, parts)?;
            values.push(RatPair { x, value })?;
            Ok(())
        }
        Role::Sum(_) => Ok(()),
    }
}

/// The value, with one over the number for the infinitesimal one.
fn value_of(over: &Over, parts: i128) -> Result<Rat, Stop> {
    let Over { value, per } = over;
    let (num, den) = if value.tiny == 0 {
        (value.real, *per)
    } else {
        let num = sum(product(value.real, parts)?, value.tiny)?;
        (num, product(*per, parts)?)
    };
    fraction(num, den)
}

/// The values over one denominator.
fn over_common(alloc: Global, values: &[RatPair]) -> Result<Point, Stop> {
    let mut denominator: i128 = 1;
    for pair in values {
        denominator = common_multiple(denominator, pair.value.den())?;
    }
    let mut numerators = HashMap::new(alloc);
    for pair in values {
        let numerator = product(pair.value.num(), quotient(denominator, pair.value.den())?)?;
        numerators.insert(pair.x, numerator)?;
    }
    Ok(Point {
        numerators,
        denominator,
    })
}
