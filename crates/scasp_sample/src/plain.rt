//! The rows of a list of constraints that are no disequations.
ghost use Rattle.scasp_sample.specs.Inside.Lists.{AddsRows};
ghost use Rattle.scasp_sample.specs.Sampling.{all_plain, con_plain};
ghost use Rattle.scasp_num.specs.Linear.{Gives};
ghost use Rattle.scasp_unify.specs.Solving.{sub_of};

use scasp_num::{Op, Row, RowErr, Rows};
use scasp_syntax::Con;
use scasp_unify::{Binding, resolved_row};
use std::alloc::Global;

/// Puts the row at the end, where it is no disequation.
fn push_row(alloc: Global, row: &Row, bindings: &[Binding], made: &mut Rows) -> Result<(), RowErr>
    ensures { AddsRows made.old made.new result (con_plain (sub_of bindings.now) (Con.Row row.now)) }
{
    match row.op() {
        Op::Ne => Ok(()),
        Op::Eq | Op::Lt | Op::Le => {
            made.push(resolved_row(alloc, row, bindings)?)?;
            Ok(())
        }
    }
}

fn push_con(
    alloc: Global,
    constraint: &Con,
    bindings: &[Binding],
    made: &mut Rows,
) -> Result<(), RowErr>
    ensures { AddsRows made.old made.new result (con_plain (sub_of bindings.now) constraint.now) }
{
    match constraint {
        Con::Row(row) => push_row(alloc, row, bindings, made),
        Con::Eq(_, _) | Con::Neq(_, _) | Con::NotShape(_, _, _) | Con::Num(_) | Con::NotNum(_) => {
            Ok(())
        }
    }
}

/// The rows that are no disequations, in order, as the bindings resolve them.
pub(crate) fn all_plain(
    alloc: Global,
    constraints: &[Con],
    bindings: &[Binding],
) -> Result<Rows, RowErr>
    ensures { Gives result (all_plain (sub_of bindings.now) constraints.now) }
{
    let mut made = Rows::new(alloc);
    for constraint in constraints {
        push_con(alloc, constraint, bindings, &mut made)?;
    }
    Ok(made)
}
