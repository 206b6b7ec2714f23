//! Flat bodies.
ghost use Rattle.std.specs.Prelude.{◌≡◌, ◌++◌, [], ◌∷◌, nat_eq, map, IfOk, OnOk};
ghost use Rattle.std.specs.List.{list_any};
ghost use Rattle.scasp_syntax.specs.Flat.{flat_body, number_test, unseen};
ghost use Rattle.scasp_syntax.specs.declared.clause.FlatItem.TheVariants as flat_item;
ghost use Rattle.scasp_syntax.specs.declared.con.Con.TheVariants as con;

use crate::clause::{Clause, FlatItem, FlatItems, Item, Items, Lin};
use crate::con::Con;
use crate::copies::{DeepCopy, copy};
use crate::lists::VarList;
use crate::term::Term;
use scasp_name::Memory;
use std::alloc::Global;

/// The flat body of a clause: literals as they are, an equation or a disequation as one test, and a linear item as a test
/// that it is a number for each of its variables that this body has not tested so before, ascending, and then its row.
pub fn flat(alloc: Global, clause: &Clause) -> Result<FlatItems, Memory>
    ensures { IfOk result (λ items. items ≡ flat_body clause.now.body) }
{
    flat_items(alloc, &clause.body)
}

/// The flat body that these items are.
pub fn flat_items(alloc: Global, body: &Items) -> Result<FlatItems, Memory>
    ensures { IfOk result (λ items. items ≡ flat_body body.now) }
{
    let mut items = FlatItems::new(alloc);
    let mut seen = VarList::new(alloc);
    for item in body.as_slice() {
        match item {
            Item::Call(lit) => items.push(FlatItem::Call(lit.copy(alloc)?))?,
            Item::Equal(left, right) => {
                items.push(FlatItem::Test(Con::Eq(copy(alloc, left)?, copy(alloc, right)?)))?;
            }
            Item::Differ(left, right) => {
                items.push(FlatItem::Test(Con::Neq(copy(alloc, left)?, copy(alloc, right)?)))?;
            }
            Item::Linear(linear) => push_linear(linear, &mut seen, &mut items)?,
        }
    }
    Ok(items)
}

/// Puts the tests of a linear item at the end; `seen` has the variables that were tested to be numbers.
fn push_linear(linear: &Lin, seen: &mut VarList, items: &mut FlatItems) -> Result<(), Memory>
    ensures numbers { OnOk result (seen.new ≡ seen.old ++ linear.now.vars) }
    ensures tests { OnOk result (items.new ≡ (items.old ++ map number_test (unseen seen.old linear.now.vars)) ++ flat_item.Test (con.Row linear.now.row) ∷ []) }
{
    let row = linear.row.clone()?;
    push_number_tests(linear.vars.as_slice(), seen.as_slice(), items)?;
    items.push(FlatItem::Test(Con::Row(row)))?;
    for x in linear.vars.as_slice() {
        seen.push(*x)?;
    }
    Ok(())
}

/// Puts a test at the end for each of the variables that is not among those seen.
fn push_number_tests(vars: &[u64], seen: &[u64], items: &mut FlatItems) -> Result<(), Memory>
    ensures { OnOk result (items.new ≡ items.old ++ map number_test (unseen seen.now vars.now)) }
{
    for x in vars {
        if !is_among(seen, *x) {
            items.push(FlatItem::Test(Con::Num(Term::Var(*x))))?;
        }
    }
    Ok(())
}

fn is_among(numbers: &[u64], x: u64) -> bool
    ensures { result ≡ list_any (nat_eq x) numbers.now }
{
    for number in numbers {
        if *number == x {
            return true;
        }
    }
    false
}
