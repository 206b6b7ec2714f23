//! Steps that are tried as they are made.
ghost use Rattle.std.specs.Prelude.{◌≡◌, ◌++◌, [], IfOk, IsTrue, OnOk, Some, option_copied};
ghost use Rattle.std.specs.List.{list_any};
ghost use Rattle.scasp_rows.specs.Points.{is_false};
ghost use Rattle.scasp_rows.specs.Steps.{StepInRange, row_made, row_numbered};
ghost use Rattle.scasp_simplex.specs.Inside.Chains.{Add};

use crate::stop::Stop;
use scasp_num::{Row, Rows, Step, Steps};
use scasp_rows::{is_false, step};
use std::alloc::Global;

/// Steps, and the rows that they add behind given ones.
#[derive(Drop)]
pub(crate) struct Chain {
    pub(crate) added: Rows,
    pub(crate) steps: Steps,
}

impl Chain {
    /// No steps; no memory is taken.
    pub(crate) fn new(alloc: Global) -> Chain
        ensures added { result.added ≡ [] }
        ensures steps { result.steps ≡ [] }
    {
        Chain {
            added: Rows::new(alloc),
            steps: Steps::new(alloc),
        }
    }
}

/// The row with this number, counted from 1 through both lists.
pub(crate) fn numbered<'a>(rows: &'a [Row], added: &'a [Row], number: u64) -> Option<&'a Row>
    ensures { option_copied result ≡ row_numbered (rows.now ++ added.now) number }
{
    if number == 0 {
        return None;
    }
    let place = (number - 1) as usize;
    if place < rows.len() {
        rows.get(place)
    } else {
        added.get(place - rows.len())
    }
}

/// Whether the multipliers lie in -M..M.
fn is_in_range(next: &Step) -> bool
    ensures { IsTrue result → StepInRange next.now }
{
    next.a != i128::MIN && next.b != i128::MIN
}

/// Adds the row of a step. What does not fit is refused.
pub(crate) fn add_step(
    alloc: Global,
    rows: &[Row],
    chain: &mut Chain,
    next: &Step,
) -> Result<(), Stop>
    requires { Add rows.now chain.old.steps chain.old.added }
    ensures { OnOk result (Add rows.now chain.new.steps chain.new.added) }
{
    if !is_in_range(next) {
        return Err(Stop::Lost);
    }
    let row = row_of(alloc, rows, chain.added.as_slice(), next)?;
    chain.added.push(row)?;
    chain.steps.push(*next)?;
    Ok(())
}

/// The row that the step makes.
fn row_of(alloc: Global, rows: &[Row], added: &[Row], next: &Step) -> Result<Row, Stop>
    ensures { IfOk result (λ row. Some row ≡ row_made (rows.now ++ added.now) next.now) }
{
    let Some(first) = numbered(rows, added, next.p) else {
        return Err(Stop::Lost);
    };
    let Some(second) = numbered(rows, added, next.q) else {
        return Err(Stop::Lost);
    };
    let row = step(alloc, next.a, first, next.b, second)?;
    Ok(row)
}

/// Whether one of the rows is a false constant row.
pub(crate) fn has_false(rows: &[Row]) -> bool
    ensures { result ≡ list_any is_false rows.now }
{
    for row in rows {
        if is_false(row) {
            return true;
        }
    }
    false
}
