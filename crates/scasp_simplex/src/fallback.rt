//! Rows that are decided without a tableau.
ghost use Rattle.std.specs.Prelude.{◌≡◌, false, take, IfNone, IfSome};
ghost use Rattle.std.specs.List.{list_any};
ghost use Rattle.scasp_num.specs.Linear.{IsNormal};
ghost use Rattle.scasp_rows.specs.Points.{NoDisequation, is_false};
ghost use Rattle.scasp_simplex.specs.Inside.Certified.{Answers, IsFalseAt};

use scasp_num::{Row, Rows, Step, Steps};
use scasp_rows::{LinErr, Verdict, eliminate, is_false};
use std::alloc::Global;

/// The first rows, as many.
pub(crate) fn shortened(rows: Rows, count: usize) -> Rows
    ensures { result ≡ take count rows }
{
    let mut rows = rows.into_vec();
    rows.truncate(count);
    Rows::from(rows)
}

/// The number of the first false constant row, counted from 1.
pub(crate) fn false_number(rows: &[Row]) -> Option<u64>
    ensures some { IfSome result (IsFalseAt rows.now) }
    ensures none { IfNone result (list_any is_false rows.now ≡ false) }
{
    for (place, row) in rows.iter().enumerate() {
        if is_false_row(row) {
            return Some(place as u64 + 1);
        }
    }
    None
}

/// Whether it is a false constant row.
fn is_false_row(row: &Row) -> bool
    ensures value { result ≡ is_false row.now }
    ensures normal { IsNormal row.now }
{
    let _op = row.op();
    is_false(row)
}

/// Unsatisfiable by the double of a false row.
pub(crate) fn doubled(alloc: Global, rows: &Rows, number: u64) -> Result<Verdict, LinErr>
    requires rows { NoDisequation rows.now }
    requires number { IsFalseAt rows.now number }
    ensures { Answers rows.now result }
{
    let _rows = rows;
    let mut steps = Steps::new(alloc);
    let step = Step {
        a: 1,
        p: number,
        b: 1,
        q: number,
    };
    match steps.push(step) {
        Ok(()) => Ok(Verdict::Unsat(steps)),
        Err(_) => Err(LinErr::Memory),
    }
}

/// The verdict by elimination, where no row that is given is a false constant row.
pub(crate) fn by_elimination(alloc: Global, rows: &Rows) -> Result<Verdict, LinErr>
    requires rows { NoDisequation rows.now }
    requires open { list_any is_false rows.now ≡ false }
    ensures { Answers rows.now result }
{
    eliminate(alloc, rows)
}
