//! The simplex form: basic variables as sums of the others, in whole numbers.
use crate::combination::Combination;
use crate::point::Point;
use crate::stop::Stop;
use crate::value::Value;
use crate::whole::product;
use scasp_num::Row;
use std::alloc::Global;
use std::cmp::Ordering;

/// What a variable of the form stands for.
#[derive(Clone, Copy)]
pub(crate) enum Role {
    /// A variable of the rows.
    Given(u64),
    /// The sum of the terms of the row at a place.
    Sum(usize),
}

/// The most that a variable may be, and the least too where it is exact.
#[derive(Clone, Copy)]
pub(crate) struct Bound {
    pub(crate) most: Value,
    pub(crate) is_exact: bool,
}

/// A variable of the form. Those with a lower `order` are chosen first.
#[derive(Clone, Copy)]
pub(crate) struct Unknown {
    pub(crate) order: u64,
    pub(crate) role: Role,
    pub(crate) bound: Option<Bound>,
}

/// A variable that is no sum of others, with its value times the form's unit.
#[derive(Clone, Copy)]
pub(crate) struct Column {
    pub(crate) unknown: Unknown,
    pub(crate) value: Value,
    /// How many lines it stands in.
    pub(crate) uses: usize,
}

/// A basic variable as a sum of the columns' variables, with its value times the unit and the scale of the sum.
#[derive(Drop)]
pub(crate) struct Line {
    pub(crate) basic: Unknown,
    pub(crate) sum: Combination,
    pub(crate) value: Value,
}

/// The basic variables, and the others, which have values within their bounds.
#[derive(Drop)]
pub(crate) struct Form {
    pub(crate) lines: Vec<Line>,
    pub(crate) columns: Vec<Column>,
    /// A number above 0; the columns' values times it are whole.
    pub(crate) unit: i128,
    /// How many variables there have been.
    pub(crate) made: u64,
    /// How many of the first rows it stands for.
    pub(crate) rows: usize,
    /// The last point that met all rows.
    pub(crate) point: Option<Point>,
}

impl Form {
    /// The form of no rows; no memory is taken.
    pub(crate) fn new(alloc: Global) -> Form {
        Form {
            lines: Vec::new(alloc),
            columns: Vec::new(alloc),
            unit: 1,
            made: 0,
            rows: 0,
            point: None,
        }
    }

    /// A new number in the order of the variables.
    pub(crate) fn next_order(&mut self) -> Result<u64, Stop> {
        let order = self.made;
        self.made = order.checked_add(1).ok_or(Stop::Lost)?;
        Ok(order)
    }
}

impl Unknown {
    /// The row's coefficient of the variable, where it is one of the rows'.
    pub(crate) fn coefficient_in(&self, row: &Row) -> i128 {
        match self.role {
            Role::Given(x) => row.coefficient(x),
            Role::Sum(_) => 0,
        }
    }

    /// Whether it is this variable of the rows.
    pub(crate) fn is_given(&self, x: u64) -> bool {
        match self.role {
            Role::Given(y) => y == x,
            Role::Sum(_) => false,
        }
    }

    /// Whether it stands for a row that is not among the first `rows`.
    pub(crate) fn is_dead(&self, rows: usize) -> bool {
        match self.role {
            Role::Given(_) => false,
            Role::Sum(place) => place >= rows,
        }
    }
}

impl Column {
    /// Whether the variable may rise.
    pub(crate) fn may_rise(&self, unit: i128) -> Result<bool, Stop> {
        match &self.unknown.bound {
            None => Ok(true),
            Some(bound) => {
                Ok(
                    !bound.is_exact
                        && self.value.compare(&bound.most.times(unit)?) == Ordering::Less,
                )
            }
        }
    }

    /// Whether the variable may fall.
    pub(crate) fn may_fall(&self) -> bool {
        match &self.unknown.bound {
            None => true,
            Some(bound) => !bound.is_exact,
        }
    }
}

impl Line {
    /// What the value is multiplied by.
    pub(crate) fn per(&self, unit: i128) -> Result<i128, Stop> {
        product(self.sum.scale, unit)
    }
}

/// The value of the sum, times its scale and what the columns' values are multiplied by.
pub(crate) fn value_by(columns: &[Column], sum: &Combination) -> Result<Value, Stop> {
    let mut value = Value::zero();
    for term in sum.terms.as_slice() {
        if let Some(column) = columns.get(term.column) {
            value = value.plus(&column.value.times(term.times)?)?;
        }
    }
    Ok(value)
}

/// Counts that one more line is the sum.
pub(crate) fn count_in(columns: &mut [Column], sum: &Combination) {
    for term in sum.terms.as_slice() {
        if let Some(column) = columns.get_mut(term.column) {
            column.uses = column.uses.saturating_add(1);
        }
    }
}

/// Counts that one line less is the sum.
pub(crate) fn count_out(columns: &mut [Column], sum: &Combination) {
    for term in sum.terms.as_slice() {
        if let Some(column) = columns.get_mut(term.column) {
            column.uses = column.uses.saturating_sub(1);
        }
    }
}
