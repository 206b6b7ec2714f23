//! Choice of pivots. The first basic variable in order that is beyond its bounds is brought toward them: first so that
//! those that are within theirs stay there, later by Bland's rule (1977), by which no basis comes twice.
use crate::adding::add_rows;
use crate::combination::Term;
use crate::dropping::drop_rows;
use crate::form::{Column, Form, Line, Role, Unknown};
use crate::nearest::nearest;
use crate::pivoting::pivot;
use crate::stop::Stop;
use crate::value::Value;
use crate::whole::negation;
use scasp_num::Row;
use std::alloc::Global;
use std::cmp::Ordering;

/// A basic variable beyond its bounds: its line, its number in the order, and whether it is above them.
#[derive(Clone, Copy)]
struct Beyond {
    at: usize,
    order: u64,
    is_above: bool,
}

/// How a pivot is chosen.
#[derive(Clone, Copy)]
enum Rule {
    /// The column that the fewest lines have enters, and the basic variable that first comes to its bounds leaves.
    Nearest,
    /// The first column in order enters, and the basic variable that is beyond its bounds leaves.
    First,
}

/// A row, by its number, times a whole number.
#[derive(Clone, Copy)]
pub(crate) struct Share {
    pub(crate) number: u64,
    pub(crate) times: i128,
}

/// What the form says of the rows.
#[derive(Drop)]
pub(crate) enum Found {
    /// All variables have values within their bounds.
    Within,
    /// The sum of these rows is false.
    Clash(Vec<Share>),
}

/// How the line's basic variable is beyond its bounds, if it is.
fn beyond_of(at: usize, line: &Line, unit: i128) -> Result<Option<Beyond>, Stop> {
    let Some(bound) = &line.basic.bound else {
        return Ok(None);
    };
    let most = bound.most.times(line.per(unit)?)?;
    let is_above = match line.value.compare(&most) {
        Ordering::Greater => true,
        Ordering::Less if bound.is_exact => false,
        Ordering::Less | Ordering::Equal => return Ok(None),
    };
    Ok(Some(Beyond {
        at,
        order: line.basic.order,
        is_above,
    }))
}

/// A pivot, with the value that the basic variable gets; or that none is needed, or none helps.
#[derive(Drop)]
enum Next {
    Done(Found),
    Pivot {
        at: usize,
        column: usize,
        value: Value,
    },
}

/// The first basic variable in order that is beyond its bounds.
fn first_beyond(form: &Form) -> Result<Option<Beyond>, Stop> {
    let mut taken: Option<Beyond> = None;
    for (at, line) in form.lines.iter().enumerate() {
        let Some(next) = beyond_of(at, line, form.unit)? else {
            continue;
        };
        taken = match taken {
            Some(other) if other.order <= next.order => Some(other),
            _ => Some(next),
        };
    }
    Ok(taken)
}

/// Whether the column's variable can bring the basic one, in which it has the term, toward its bounds.
fn may_help(column: &Column, unit: i128, term: &Term, is_above: bool) -> Result<bool, Stop> {
    if (term.times > 0) == is_above {
        Ok(column.may_fall())
    } else {
        column.may_rise(unit)
    }
}

/// Whether the rule takes the first before the other.
fn is_column_before(rule: Rule, first: &Column, other: &Column) -> bool {
    match rule {
        Rule::Nearest => first.uses <= other.uses,
        Rule::First => first.unknown.order <= other.unknown.order,
    }
}

/// The column that the rule takes of those that can bring the basic variable toward its bounds.
fn entering(form: &Form, line: &Line, is_above: bool, rule: Rule) -> Result<Option<usize>, Stop> {
    let mut taken: Option<(usize, Column)> = None;
    for term in line.sum.terms.as_slice() {
        let Some(next) = form.columns.get(term.column) else {
            continue;
        };
        if !may_help(next, form.unit, term, is_above)? {
            continue;
        }
        taken = match taken {
            Some((at, other)) if is_column_before(rule, &other, next) => Some((at, other)),
            _ => Some((term.column, *next)),
        };
    }
    Ok(taken.map(|(at, _)| at))
}

/// The row whose sum the variable is, times the number. A variable of the rows has none, and is none of a clash.
fn share_of(unknown: &Unknown, times: i128) -> Result<Share, Stop> {
    match unknown.role {
        Role::Given(_) => Err(Stop::Lost),
        Role::Sum(place) => {
            let number = (place as u64).saturating_add(1);
            Ok(Share { number, times })
        }
    }
}

/// The rows whose sum is false: that of the basic variable, less those of the columns in its sum, or turned where
/// the basic variable is below its bounds.
fn clash(
    alloc: Global,
    columns: &[Column],
    line: &Line,
    is_above: bool,
) -> Result<Vec<Share>, Stop> {
    let mut shares = Vec::new(alloc);
    let scale = line.sum.scale;
    let times = if is_above { scale } else { negation(scale)? };
    shares.push(share_of(&line.basic, times)?)?;
    for term in line.sum.terms.as_slice() {
        let Some(column) = columns.get(term.column) else {
            return Err(Stop::Lost);
        };
        let times = if is_above {
            negation(term.times)?
        } else {
            term.times
        };
        shares.push(share_of(&column.unknown, times)?)?;
    }
    Ok(shares)
}

/// The bound of the line's basic variable, times the unit.
fn bound_of(line: &Line, unit: i128) -> Result<Value, Stop> {
    match &line.basic.bound {
        Some(bound) => bound.most.times(unit),
        None => Err(Stop::Lost),
    }
}

/// The pivot by which the column enters.
fn pivot_by(form: &Form, beyond: &Beyond, column: usize, rule: Rule) -> Result<Next, Stop> {
    let at = match rule {
        Rule::Nearest => nearest(form, beyond.at, beyond.is_above, column)?,
        Rule::First => beyond.at,
    };
    let Some(line) = form.lines.get(at) else {
        return Err(Stop::Lost);
    };
    Ok(Next::Pivot {
        at,
        column,
        value: bound_of(line, form.unit)?,
    })
}

/// What comes next: a pivot, or what the form says of the rows.
fn next_of(alloc: Global, form: &Form, rule: Rule) -> Result<Next, Stop> {
    let Some(beyond) = first_beyond(form)? else {
        return Ok(Next::Done(Found::Within));
    };
    let Some(line) = form.lines.get(beyond.at) else {
        return Err(Stop::Lost);
    };
    match entering(form, line, beyond.is_above, rule)? {
        Some(column) => pivot_by(form, &beyond, column, rule),
        None => {
            let shares = clash(alloc, form.columns.as_slice(), line, beyond.is_above)?;
            Ok(Next::Done(Found::Clash(shares)))
        }
    }
}

/// Brings one basic variable toward its bounds, or tells that all are there, or that one cannot be brought there.
fn turn(alloc: Global, form: &mut Form, rule: Rule) -> Result<Option<Found>, Stop> {
    match next_of(alloc, form, rule)? {
        Next::Done(found) => Ok(Some(found)),
        Next::Pivot { at, column, value } => {
            pivot(alloc, form, at, column, &value)?;
            Ok(None)
        }
    }
}

/// As many pivots may be made.
fn most_pivots(form: &Form) -> usize {
    form.lines
        .len()
        .saturating_add(form.columns.len())
        .saturating_mul(16)
        .saturating_add(64)
}

/// Brings the form up to date with the rows, and its variables to their bounds.
pub(crate) fn solve(alloc: Global, form: &mut Form, rows: &[Row]) -> Result<Found, Stop> {
    drop_rows(alloc, form)?;
    add_rows(alloc, form, rows)?;
    let most = most_pivots(form);
    for count in 0..most {
        let rule = if count < most / 2 {
            Rule::Nearest
        } else {
            Rule::First
        };
        if let Some(found) = turn(alloc, form, rule)? {
            return Ok(found);
        }
    }
    Err(Stop::Lost)
}
