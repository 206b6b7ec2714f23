//! The rows that are left where some variables are eliminated.
ghost use Rattle.std.specs.Prelude.{◌≡◌, IfOk, map};
ghost use Rattle.scasp_rows.specs.Elimination.{Ends};
ghost use Rattle.scasp_rows.specs.LeftRows.{Leaves, elimination_of, rows_left};

use crate::elimination::{all_looked, eliminated};
use crate::state::{Halt, StandingRows, State};
use crate::verdict::LinErr;
use scasp_list::Memory;
use scasp_num::{Row, Rows};
use std::alloc::Global;

/// The rows without their numbers.
fn without_numbers(alloc: Global, standing: StandingRows) -> Result<Rows, Memory>
    ensures { IfOk result (λ rows. rows ≡ map (λ r. r.row) standing) }
{
    let mut rows = Rows::new(alloc);
    for r in standing.into_vec() {
        rows.push(r.row)?;
    }
    Ok(rows)
}

/// Eliminates the variables in order.
fn elimination_of(alloc: Global, variables: &[u64], rows: &[Row]) -> Result<State, Halt>
    ensures { Ends result (elimination_of variables.now rows.now) }
{
    let state = all_looked(alloc, rows)?;
    eliminated(alloc, variables, state)
}

/// The rows that are left where these variables are eliminated, in order (Fourier 1826, Motzkin 1936); None where a false
/// constant row is reached. Overflow exactly where a product or a sum of the elimination lies outside -M..M, with
/// M = 2^127 - 1, or more than 4,096 rows stand after a variable.
pub fn eliminate_variables(
    alloc: Global,
    variables: &[u64],
    rows: &Rows,
) -> Result<Option<Rows>, LinErr>
    ensures { Leaves result (rows_left (elimination_of variables.now rows.now)) }
{
    match elimination_of(alloc, variables, rows.as_slice()) {
        Ok(state) => match without_numbers(alloc, state.standing) {
            Ok(left) => Ok(Some(left)),
            Err(_) => Err(LinErr::Memory),
        },
        Err(Halt::Unsat(_)) => Ok(None),
        Err(Halt::Overflow) => Err(LinErr::Overflow),
        Err(Halt::Memory) => Err(LinErr::Memory),
    }
}
