//! The sample of a list.
ghost use Rattle.std.specs.Prelude.{◌≡◌, Err, IfOk, None, Some};
ghost use Rattle.scasp_num.specs.Linear.{Gives};
ghost use Rattle.scasp_search_rules.specs.Successors.Numbering.{con_renamed, placing};
ghost use Rattle.scasp_search_rules.specs.Successors.Reading.{con_under};
ghost use Rattle.scasp_unify.specs.Solving.{sub_of};
ghost use Rattle.scasp_constraint_store.specs.Sampled.{is_equation, placed, sampled};

use crate::asking::StoreErr;
use scasp_list::Memory;
use scasp_num::RowErr;
use scasp_sample::{Placing, any_unreplaced, con_renamed, sample};
use scasp_search_terms::constraints::read_con;
use scasp_syntax::{Con, Cons, Terms, VarList};
use scasp_unify::{Binding, resolver_of};
use std::alloc::Global;

fn is_equation(constraint: &Con) -> bool
    ensures { result ≡ is_equation constraint.now }
{
    match constraint {
        Con::Eq(_, _) => true,
        Con::Neq(_, _) | Con::NotShape(_, _, _) | Con::Num(_) | Con::NotNum(_) | Con::Row(_) => {
            false
        }
    }
}

/// The constraint as the bindings make it, where each variable is its place.
fn placed_one(
    alloc: Global,
    constraint: &Con,
    bindings: &[Binding],
    by: &Placing,
) -> Result<Con, Memory>
    ensures { IfOk result (λ made. made ≡ con_renamed (placing by.now.all.now) (con_under (sub_of bindings.now) constraint.now)) }
{
    let read = read_con(alloc, constraint, bindings)?;
    con_renamed(alloc, by, &read)
}

/// The constraints that are no equations, as the bindings make them, where each variable is its place.
fn placed(alloc: Global, list: &[Con], bindings: &[Binding], by: &Placing) -> Result<Cons, Memory>
    ensures { IfOk result (λ made. made ≡ placed (sub_of bindings.now) by.now.all.now list.now) }
{
    let mut made = Cons::new(alloc);
    for constraint in list {
        if !is_equation(constraint) {
            made.push(placed_one(alloc, constraint, bindings, by)?)?;
        }
    }
    Ok(made)
}

/// Values for these variables by a list, where the names of those that are no numbers start with `fresh`. Overflow exactly
/// where the list's bindings cannot replace a row in the range of the numbers, or where the arithmetic of the sample overflows.
fn sample_of(alloc: Global, fresh: u64, order: &VarList, list: &[Con]) -> Result<Terms, RowErr>
    ensures { Gives result (sampled fresh order.now list.now) }
{
    let resolver = resolver_of(alloc, list)?;
    let bindings = resolver.bindings.as_slice();
    if any_unreplaced(alloc, bindings, list)? {
        return Err(RowErr::Overflow);
    }
    let by = Placing {
        all: order.as_slice(),
    };
    let given = placed(alloc, list, bindings, &by)?;
    sample(alloc, fresh, given.as_slice(), order.len() as u64)
}

/// The same, with the errors of a store.
pub(crate) fn sample_by(
    alloc: Global,
    fresh: u64,
    order: &VarList,
    list: &[Con],
) -> Result<Terms, StoreErr>
    ensures value { IfOk result (λ made. sampled fresh order.now list.now ≡ Some made) }
    ensures overflow { result ≡ Err StoreErr.Overflow → sampled fresh order.now list.now ≡ None }
{
    match sample_of(alloc, fresh, order, list) {
        Ok(made) => Ok(made),
        Err(RowErr::Overflow) => Err(StoreErr::Overflow),
        Err(RowErr::Memory) => Err(StoreErr::Memory),
    }
}
