//! Rows with their variables replaced by what they stand for.
ghost use Rattle.std.specs.Prelude.{◌≡◌, IfOk};
ghost use Rattle.scasp_num.specs.Linear.{Gives};
ghost use Rattle.scasp_unify.specs.ResolvedRows.{replaced_by, resolved_row};
ghost use Rattle.scasp_unify.specs.Solving.{sub_of};

use crate::bindings::{Binding, resolve};
use scasp_list::Memory;
use scasp_num::{Row, RowErr};
use scasp_syntax::Term;
use std::alloc::Global;

/// A copy of a row.
fn copied(row: &Row) -> Result<Row, Memory>
    ensures { IfOk result (λ made. made ≡ row.now) }
{
    Ok(row.clone()?)
}

/// The row with one variable replaced by the number or the variable that it stands for.
fn replaced(alloc: Global, row: Row, x: u64, bindings: &[Binding]) -> Result<Row, RowErr>
    ensures { Gives result (replaced_by (sub_of bindings.now x) x row) }
{
    match resolve(alloc, &Term::Var(x), bindings)? {
        Term::Num(value) => row.put(x, &value),
        Term::Var(y) => { if y == x { Ok(row) } else { row.join(x, y) } }
        Term::App(_, _) => Ok(row),
    }
}

/// The row with its variables replaced, in order, by the numbers and the variables that they stand for; one that stands
/// for a compound term stays. Overflow exactly where a replacement overflows.
pub fn resolved_row(alloc: Global, row: &Row, bindings: &[Binding]) -> Result<Row, RowErr>
    ensures { Gives result (resolved_row (sub_of bindings.now) row.now) }
{
    let mut resolved = copied(row)?;
    for term in row.coeffs().as_slice() {
        resolved = replaced(alloc, resolved, term.x, bindings)?;
    }
    Ok(resolved)
}
