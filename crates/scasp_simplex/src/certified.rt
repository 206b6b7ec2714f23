//! What the tableau finds, tested.
ghost use Rattle.std.specs.Prelude.{IfOk, IfSome, IsTrue};
ghost use Rattle.scasp_rows.specs.Points.{IsMet};
ghost use Rattle.scasp_simplex.specs.Inside.Certified.{IsRight};
ghost use Rattle.scasp_simplex.specs.Inside.Chains.{Add};

use crate::chain::{Chain, has_false};
use crate::combining::combine;
use crate::form::Form;
use crate::point::{meets_all, meets_last};
use crate::pointing::point_of;
use crate::solving::{Found, Share, solve};
use crate::stop::Stop;
use scasp_list::Memory;
use scasp_num::Row;
use scasp_rows::Verdict;
use std::alloc::Global;

/// Whether the last point is seen to meet all rows. The last row is looked at first, since it is often the only new one.
fn is_met(form: &Form, rows: &[Row]) -> bool
    ensures { IsTrue result → IsMet rows.now }
{
    match &form.point {
        Some(point) => meets_last(point, rows) && meets_all(point, rows),
        None => false,
    }
}

/// The verdict by the last point or by the form, where it stands the test; else by a new form, where that does. None
/// leaves a form that may stand for nothing.
pub(crate) fn certified(
    alloc: Global,
    form: &mut Form,
    rows: &[Row],
) -> Result<Option<Verdict>, Memory>
    ensures { IfOk result (λ answer. IfSome answer (IsRight rows.now)) }
{
    if is_met(form, rows) {
        return Ok(Some(Verdict::Sat));
    }
    if is_worn(form, rows) {
        *form = Form::new(alloc);
    }
    let is_new = form.lines.is_empty();
    if let Some(verdict) = by_form(alloc, form, rows)? {
        return Ok(Some(verdict));
    }
    if is_new {
        return Ok(None);
    }
    *form = Form::new(alloc);
    by_form(alloc, form, rows)
}

/// Whether the form has more than twice as many variables as one of the rows alone could have, and 64.
fn is_worn(form: &Form, rows: &[Row]) -> bool {
    let mut most: usize = 0;
    for row in rows {
        most = most.saturating_add(row.coeffs().len()).saturating_add(1);
    }
    let count = form.lines.len().saturating_add(form.columns.len());
    count > most.saturating_mul(2).saturating_add(64)
}

/// The verdict by the form, where it stands the test.
fn by_form(alloc: Global, form: &mut Form, rows: &[Row]) -> Result<Option<Verdict>, Memory>
    ensures { IfOk result (λ answer. IfSome answer (IsRight rows.now)) }
{
    match solve(alloc, form, rows) {
        Ok(Found::Within) => by_point(alloc, form, rows),
        Ok(Found::Clash(shares)) => by_steps(alloc, rows, shares.as_slice()),
        Err(Stop::Lost) => Ok(None),
        Err(Stop::Memory) => Err(Memory),
    }
}

/// Satisfiable, where the form's point meets all rows.
fn by_point(alloc: Global, form: &mut Form, rows: &[Row]) -> Result<Option<Verdict>, Memory>
    ensures { IfOk result (λ answer. IfSome answer (IsRight rows.now)) }
{
    match point_of(alloc, form) {
        Ok(point) => Ok(if meets_all(&point, rows) {
            form.point = Some(point);
            Some(Verdict::Sat)
        } else {
            None
        }),
        Err(Stop::Lost) => Ok(None),
        Err(Stop::Memory) => Err(Memory),
    }
}

/// Unsatisfiable, where the shares add up to a false row.
fn by_steps(alloc: Global, rows: &[Row], shares: &[Share]) -> Result<Option<Verdict>, Memory>
    ensures { IfOk result (λ answer. IfSome answer (IsRight rows.now)) }
{
    let mut chain = Chain::new(alloc);
    match combine(alloc, rows, &mut chain, shares) {
        Ok(()) => Ok(unsat_by(rows, chain)),
        Err(Stop::Lost) => Ok(None),
        Err(Stop::Memory) => Err(Memory),
    }
}

/// Unsatisfiable, where a false row was added.
fn unsat_by(rows: &[Row], chain: Chain) -> Option<Verdict>
    requires { Add rows.now chain.steps chain.added }
    ensures { IfSome result (IsRight rows.now) }
{
    let _rows = rows;
    let Chain { added, steps } = chain;
    if has_false(added.as_slice()) {
        Some(Verdict::Unsat(steps))
    } else {
        None
    }
}
