//! The tests of lines of cases by themselves.
ghost use Rattle.std.specs.Prelude.{◌≡◌, ℕ, Bool, true, false, ◌+◌, ◌&&◌, nat_eq, nat_le, nat_lt, None, Some, IfOk};
ghost use Rattle.scasp_cert.specs.Trees.{head, leaf, listed};
ghost use Rattle.scasp_cert.specs.View.{trees_of};
ghost use Rattle.scasp_lines.specs.Places.{Place as PlaceValue};
ghost use Rattle.scasp_lines.specs.Sides.{shape_of};
ghost use Rattle.scasp_lines_places.specs.Places.View.{body_of, place_of, shape_value};
ghost use Rattle.scasp_syntax.specs.declared.con.Con.{Con as ThisCon};
ghost use Rattle.scasp_checker_rules.specs.LineFaults.{case_faults, split_faults};
ghost use Rattle.scasp_checker_rules.specs.Refusals.{of_some};
ghost use Rattle.scasp_checker_rules.specs.Wholes.{Whole, scope, universal};
ghost use Rattle.scasp_checker_answer.specs.Judged.{Judges};
ghost use Rattle.scasp_checker_lines.specs.LineFaults.Whole.{whole};

use crate::line_faults::common::Common;
use crate::line_faults::known::{knows_con, may_split_here, scope_of, universal_of};
use scasp_cert::Nodes;
use scasp_checker_answer::{CheckErr, Scope, has_count_of, want};
use scasp_checker_rules::Reason;
use scasp_lines_places::{Body, Place, Shape, shape_of};
use scasp_list::Memory;
use scasp_syntax::{Atom, Con};
use std::alloc::Global;

/// Tests a split without new parts.
fn accept_plain_split(
    alloc: Global,
    common: &Common,
    at: u64,
    here: &Place,
    con: &Con,
) -> Result<(), CheckErr>
    ensures { Judges result (split_faults (whole common.now) at (place_of here.now) con.now None) }
{
    want(
        at,
        Reason::WrongVariable,
        knows_con(alloc, common, here, con)?,
    )?;
    want(
        at,
        Reason::WrongSplit,
        may_split_here(alloc, common, here, con)?,
    )
}

/// Whether the variable may stand on the line.
fn is_in_scope(alloc: Global, common: &Common, here: &Place, x: u64) -> Result<bool, Memory>
    ensures { IfOk result (λ is. is ≡ scope (whole common.now) (place_of here.now) x) }
{
    scope_of(common, here).knows(alloc, x)
}

/// Whether the variable is a universal one that may stand on the line and is not replaced.
fn is_universal_here(alloc: Global, common: &Common, here: &Place, x: u64) -> Result<bool, Memory>
    ensures { IfOk result (λ is. is ≡ universal (whole common.now) (place_of here.now) x) }
{
    universal_of(common, here).knows(alloc, x)
}

/// Tests a split into a variable's shape with new parts and the rest.
fn accept_shape_split(
    alloc: Global,
    common: &Common,
    at: u64,
    here: &Place,
    shape: Shape,
) -> Result<(), CheckErr>
    ensures { (c : ThisCon) → Judges result (split_faults (whole common.now) at (place_of here.now) c (Some (shape_value shape))) }
{
    want(
        at,
        Reason::WrongVariable,
        is_in_scope(alloc, common, here, shape.of)?,
    )?;
    want(
        at,
        Reason::WrongSplit,
        is_universal_here(alloc, common, here, shape.of)?,
    )
}

/// Tests a split, where `next` is the number of the next universal variable.
pub fn accept_split(
    alloc: Global,
    common: &Common,
    at: u64,
    next: u64,
    here: &Place,
    con: &Con,
) -> Result<(), CheckErr>
    ensures { Judges result (split_faults (whole common.now) at (place_of here.now) con.now (shape_of next con.now)) }
{
    match shape_of(next, con) {
        None => accept_plain_split(alloc, common, at, here, con),
        Some(shape) => accept_shape_split(alloc, common, at, here, shape),
    }
}

/// Tests a leaf: there are nodes for the items up to the one that is false, which is one of the body.
pub fn accept_leaf(at: u64, body: &Body, item: u64, children: &Nodes) -> Result<(), CheckErr>
    ensures { (w : Whole) (next : ℕ) (here : PlaceValue) (bare : Bool) → Judges result (case_faults w at next here (body_of body.now bare) (leaf item (listed (trees_of children.now)))) }
{
    want(at, Reason::WrongChildren, has_count_of(children, item))?;
    want(
        at,
        Reason::WrongItem,
        0 < item && item <= body.items.len() as u64,
    )
}

/// Whether a rule with a head is checked.
fn may_show_head(is_check: bool, head: &Option<Atom>) -> bool
    ensures { result ≡ (is_check && of_some head.now (λ h. true)) }
{
    match head {
        Some(_) => is_check,
        None => false,
    }
}

/// One more than the number; past the range of numbers it is want of memory.
fn one_more(number: u64) -> Result<u64, Memory>
    ensures { IfOk result (λ more. more ≡ number + 1) }
{
    number.checked_add(1).ok_or(Memory)
}

/// Tests a case in which all items hold and the head does: there are nodes for all of them, and a rule with a head is
/// checked.
pub fn accept_head(at: u64, body: &Body, children: &Nodes) -> Result<(), CheckErr>
    ensures { (w : Whole) (next : ℕ) (here : PlaceValue) (bare : Bool) → Judges result (case_faults w at next here (body_of body.now bare) (head (listed (trees_of children.now)))) }
{
    let wanted = one_more(body.items.len() as u64)?;
    want(at, Reason::WrongChildren, has_count_of(children, wanted))?;
    want(
        at,
        Reason::WrongItem,
        may_show_head(body.is_check, &body.head),
    )
}
