//! Rows as bindings read them.
ghost use Rattle.std.specs.Prelude.{◌≡◌, IfOk, is_none};
ghost use Rattle.scasp_num.specs.Linear.{Gives};
ghost use Rattle.scasp_search_rules.specs.Successors.Reading.{row_under};
ghost use Rattle.scasp_search_rules.specs.Successors.Replacing.{is_unreplaced};
ghost use Rattle.scasp_unify.specs.ResolvedRows.{replaced_by, resolved_row};
ghost use Rattle.scasp_unify.specs.Solving.{sub_of};

use scasp_bound::Bound;
use scasp_list::Memory;
use scasp_num::{Row, RowErr};
use scasp_syntax::{Con, Term};
use std::alloc::Global;

/// A copy of the row.
fn copied(row: &Row) -> Result<Row, Memory>
    ensures { IfOk result (λ made. made ≡ row.now) }
{
    Ok(row.clone()?)
}

/// The row with one variable replaced by the number or the variable that it reads as.
fn replaced(alloc: Global, bound: &Bound, row: Row, x: u64) -> Result<Row, RowErr>
    ensures { Gives result (replaced_by (sub_of bound.now.now x) x row) }
{
    match bound.read(alloc, &Term::Var(x))? {
        Term::Num(value) => row.put(x, &value),
        Term::Var(y) => { if y == x { Ok(row) } else { row.join(x, y) } }
        Term::App(_, _) => Ok(row),
    }
}

/// The row with its variables replaced, in order, by the numbers and the variables that they read as. Overflow exactly
/// where a replacement overflows.
fn resolved_row(alloc: Global, bound: &Bound, row: &Row) -> Result<Row, RowErr>
    ensures { Gives result (resolved_row (sub_of bound.now.now) row.now) }
{
    let mut resolved = copied(row)?;
    for term in row.coeffs().as_slice() {
        resolved = replaced(alloc, bound, resolved, term.x)?;
    }
    Ok(resolved)
}

/// The row as the bindings read it, and as it stands where a replacement overflows.
pub(crate) fn read_row(alloc: Global, bound: &Bound, row: &Row) -> Result<Row, Memory>
    ensures { IfOk result (λ made. made ≡ row_under (sub_of bound.now.now) row.now) }
{
    match resolved_row(alloc, bound, row) {
        Ok(resolved) => Ok(resolved),
        Err(RowErr::Overflow) => copied(row),
        Err(RowErr::Memory) => Err(Memory),
    }
}

/// Whether a replacement overflows in the row.
fn is_row_unreplaced(alloc: Global, bound: &Bound, row: &Row) -> Result<bool, Memory>
    ensures { IfOk result (λ answer. answer ≡ is_none (resolved_row (sub_of bound.now.now) row.now)) }
{
    match resolved_row(alloc, bound, row) {
        Ok(_) => Ok(false),
        Err(RowErr::Overflow) => Ok(true),
        Err(RowErr::Memory) => Err(Memory),
    }
}

/// Whether the constraint is a row in which a replacement of a variable by what it reads as overflows.
pub fn is_unreplaced(alloc: Global, bound: &Bound, constraint: &Con) -> Result<bool, Memory>
    ensures { IfOk result (λ answer. answer ≡ is_unreplaced (sub_of bound.now.now) constraint.now) }
{
    match constraint {
        Con::Row(row) => is_row_unreplaced(alloc, bound, row),
        Con::Eq(_, _) | Con::Neq(_, _) | Con::NotShape(_, _, _) | Con::Num(_) | Con::NotNum(_) => {
            Ok(false)
        }
    }
}
