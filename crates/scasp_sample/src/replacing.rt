//! Rows that bindings cannot replace within the range of the numbers.
ghost use Rattle.std.specs.Prelude.{◌≡◌, IfOk, is_none};
ghost use Rattle.std.specs.List.{list_any};
ghost use Rattle.scasp_search_rules.specs.Successors.Replacing.{is_unreplaced};
ghost use Rattle.scasp_unify.specs.ResolvedRows.{resolved_row};
ghost use Rattle.scasp_unify.specs.Solving.{sub_of};

use scasp_list::Memory;
use scasp_num::{Row, RowErr};
use scasp_syntax::Con;
use scasp_unify::{Binding, resolved_row};
use std::alloc::Global;

/// Whether a replacement by the bindings overflows in the row.
fn is_row_unreplaced(alloc: Global, bindings: &[Binding], row: &Row) -> Result<bool, Memory>
    ensures { IfOk result (λ answer. answer ≡ is_none (resolved_row (sub_of bindings.now) row.now)) }
{
    match resolved_row(alloc, row, bindings) {
        Ok(_) => Ok(false),
        Err(RowErr::Overflow) => Ok(true),
        Err(RowErr::Memory) => Err(Memory),
    }
}

/// Whether the constraint is a row in which a replacement by the bindings overflows.
pub fn is_unreplaced(alloc: Global, bindings: &[Binding], constraint: &Con) -> Result<bool, Memory>
    ensures { IfOk result (λ answer. answer ≡ is_unreplaced (sub_of bindings.now) constraint.now) }
{
    match constraint {
        Con::Row(row) => is_row_unreplaced(alloc, bindings, row),
        Con::Eq(_, _) | Con::Neq(_, _) | Con::NotShape(_, _, _) | Con::Num(_) | Con::NotNum(_) => {
            Ok(false)
        }
    }
}

/// Whether one of the constraints is such a row.
pub fn any_unreplaced(
    alloc: Global,
    bindings: &[Binding],
    constraints: &[Con],
) -> Result<bool, Memory>
    ensures { IfOk result (λ answer. answer ≡ list_any (is_unreplaced (sub_of bindings.now)) constraints.now) }
{
    for constraint in constraints {
        if is_unreplaced(alloc, bindings, constraint)? {
            return Ok(true);
        }
    }
    Ok(false)
}
