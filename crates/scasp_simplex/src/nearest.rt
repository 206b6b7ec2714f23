//! How far a column's variable can go: until the first basic variable comes to its bounds.
use crate::form::{Form, Line};
use crate::stop::Stop;
use crate::value::Value;
use crate::whole::fraction;
use scasp_num::Rat;
use std::cmp::Ordering;

/// A line, and how far the column's variable can go, times the form's unit, until the basic variable of the line comes
/// to its bounds.
#[derive(Clone, Copy)]
struct Room {
    at: usize,
    real: Rat,
    tiny: Rat,
    /// How many terms the line has.
    count: usize,
}

/// The room that a gap gives, of which the column's variable takes so many times its own way.
fn room_by(at: usize, line: &Line, gap: &Value, times: i128) -> Result<Room, Stop> {
    let times = times.saturating_abs();
    Ok(Room {
        at,
        real: fraction(gap.real, times)?,
        tiny: fraction(gap.tiny, times)?,
        count: line.sum.terms.len(),
    })
}

/// How the room compares with the other, of equal ones by the terms of their lines.
fn compare(first: &Room, other: &Room) -> Ordering {
    match first.real.cmp(&other.real) {
        Ordering::Less => Ordering::Less,
        Ordering::Greater => Ordering::Greater,
        Ordering::Equal => match first.tiny.cmp(&other.tiny) {
            Ordering::Less => Ordering::Less,
            Ordering::Greater => Ordering::Greater,
            Ordering::Equal => first.count.cmp(&other.count),
        },
    }
}

/// The bound of the basic variable less its value.
fn gap_of(line: &Line, unit: i128) -> Result<Option<Value>, Stop> {
    let Some(bound) = &line.basic.bound else {
        return Ok(None);
    };
    let most = bound.most.times(line.per(unit)?)?;
    Ok(Some(most.plus(&line.value.times(-1)?)?))
}

/// Whether the basic variable is an exact one.
fn is_exact(line: &Line) -> bool {
    match &line.basic.bound {
        Some(bound) => bound.is_exact,
        None => false,
    }
}

/// Whether a basic variable with this gap stands within its bounds and leaves them as it rises, or else falls.
fn is_stopped(line: &Line, gap: &Value, is_rising: bool) -> bool {
    match gap.compare(&Value::zero()) {
        Ordering::Less => false,
        Ordering::Equal => is_rising || is_exact(line),
        Ordering::Greater => is_rising && !is_exact(line),
    }
}

/// The room of a line whose basic variable is within its bounds, where these stop the column's variable.
fn room_of(
    at: usize,
    line: &Line,
    unit: i128,
    column: usize,
    is_rising: bool,
) -> Result<Option<Room>, Stop> {
    let times = line.sum.times(column);
    if times == 0 {
        return Ok(None);
    }
    let Some(gap) = gap_of(line, unit)? else {
        return Ok(None);
    };
    if !is_stopped(line, &gap, (times > 0) == is_rising) {
        return Ok(None);
    }
    Ok(Some(room_by(at, line, &gap, times)?))
}

/// The line whose basic variable first comes to its bounds, as the column's variable brings the one that is beyond them,
/// in the line `beyond`, toward them. Others that are beyond theirs do not count.
pub(crate) fn nearest(
    form: &Form,
    beyond: usize,
    is_above: bool,
    column: usize,
) -> Result<usize, Stop> {
    let Some(line) = form.lines.get(beyond) else {
        return Err(Stop::Lost);
    };
    let times = line.sum.times(column);
    let is_rising = (times > 0) != is_above;
    let Some(gap) = gap_of(line, form.unit)? else {
        return Err(Stop::Lost);
    };
    let gap = if is_above { gap.times(-1)? } else { gap };
    let mut found = room_by(beyond, line, &gap, times)?;
    for (at, line) in form.lines.iter().enumerate() {
        let Some(room) = room_of(at, line, form.unit, column, is_rising)? else {
            continue;
        };
        if compare(&room, &found) == Ordering::Less {
            found = room;
        }
    }
    Ok(found.at)
}
