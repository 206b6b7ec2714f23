//! The elimination of the variables that are not kept.
ghost use Rattle.std.specs.Prelude.{◌≡◌, IfOk, filter};
ghost use Rattle.scasp_rows.specs.LeftRows.{Leaves, rows_left};
ghost use Rattle.scasp_project.specs.Dropped.{is_dropped};
ghost use Rattle.scasp_project.specs.LeftRows.{dropped_variables, elimination_dropping};

use crate::dropped::is_dropped;
use scasp_list::Memory;
use scasp_num::{Row, Rows};
use scasp_rows::{LinErr, eliminate_variables, variables};
use std::alloc::Global;

/// A copy of a row.
pub(crate) fn copied(row: &Row) -> Result<Row, Memory>
    ensures { IfOk result (λ made. made ≡ row.now) }
{
    Ok(row.clone()?)
}

/// The variables that are not kept.
fn dropped_among(alloc: Global, keep: &[u64], variables: &[u64]) -> Result<Vec<u64>, Memory>
    ensures { IfOk result (λ all. all.items ≡ filter (is_dropped keep.now) variables.now) }
{
    let mut all = Vec::new(alloc);
    for x in variables {
        if is_dropped(keep, *x) {
            all.push(*x)?;
        }
    }
    Ok(all)
}

/// The variables of the rows that are not kept, ascending.
fn dropped_variables(alloc: Global, keep: &[u64], rows: &[Row]) -> Result<Vec<u64>, Memory>
    ensures { IfOk result (λ all. all.items ≡ dropped_variables keep.now rows.now) }
{
    let variables = variables(alloc, rows)?;
    dropped_among(alloc, keep, variables.as_slice())
}

/// The rows that are left where the variables that are not kept are eliminated, ascending; None where a false row is
/// reached.
pub(crate) fn eliminate_dropped(
    alloc: Global,
    keep: &[u64],
    rows: &Rows,
) -> Result<Option<Rows>, LinErr>
    ensures { Leaves result (rows_left (elimination_dropping keep.now rows.now)) }
{
    match dropped_variables(alloc, keep, rows.as_slice()) {
        Ok(dropped) => eliminate_variables(alloc, dropped.as_slice(), rows),
        Err(_) => Err(LinErr::Memory),
    }
}
