//! Whether what stands on a line has variables that may stand there.
ghost use Rattle.std.specs.Prelude.{◌≡◌, ◌&&◌, IfOk};
ghost use Rattle.scasp_lines.specs.Known.{are_known, is_con_known};
ghost use Rattle.scasp_lines.specs.Places.{in_scope, is_universal};
ghost use Rattle.scasp_lines_places.specs.Places.View.{place_of};
ghost use Rattle.scasp_checker_rules.specs.Splits.{may_split};
ghost use Rattle.scasp_checker_rules.specs.Wholes.{scope, universal};
ghost use Rattle.scasp_checker_lines.specs.LineFaults.Whole.{whole};

use crate::line_faults::common::Common;
use crate::line_faults::splits::may_split;
use crate::line_faults::within::{InScope, Universal};
use scasp_checker_answer::{are_known, is_con_known};
use scasp_lines_places::Place;
use scasp_list::Memory;
use scasp_syntax::{Atom, Con, Terms};
use std::alloc::Global;

/// The variables that may stand on a line.
pub fn scope_of<'b>(common: &Common, here: &'b Place) -> InScope<'b>
    ensures { in_scope result.bounds.free result.bounds.top (place_of result.here.now) ≡ scope (whole common.now) (place_of here.now) }
{
    InScope {
        bounds: common.bounds,
        here,
    }
}

/// The universal variables that may stand on a line and are not replaced.
pub fn universal_of<'b>(common: &Common, here: &'b Place) -> Universal<'b>
    ensures known { is_universal result.bounds.free result.bounds.top (place_of result.here.now) ≡ universal (whole common.now) (place_of here.now) }
    ensures here { result.here.now ≡ here.now }
{
    Universal {
        bounds: common.bounds,
        here,
    }
}

/// Whether the variables of the terms may stand on the line.
fn knows_terms(alloc: Global, common: &Common, here: &Place, terms: &Terms) -> Result<bool, Memory>
    ensures { IfOk result (λ are. are ≡ are_known (scope (whole common.now) (place_of here.now)) terms.now) }
{
    let scope = scope_of(common, here);
    are_known(alloc, &scope, terms)
}

/// Whether the variables of an atom and of terms may stand on the line.
pub fn knows_atom(
    alloc: Global,
    common: &Common,
    here: &Place,
    atom: &Atom,
    terms: &Terms,
) -> Result<bool, Memory>
    ensures { IfOk result (λ are. are ≡ (are_known (scope (whole common.now) (place_of here.now)) atom.now.args && are_known (scope (whole common.now) (place_of here.now)) terms.now)) }
{
    if !knows_terms(alloc, common, here, &atom.args)? {
        return Ok(false);
    }
    knows_terms(alloc, common, here, terms)
}

/// Whether the variables of the constraint may stand on the line.
pub fn knows_con(alloc: Global, common: &Common, here: &Place, con: &Con) -> Result<bool, Memory>
    ensures { IfOk result (λ are. are ≡ is_con_known (scope (whole common.now) (place_of here.now)) con.now) }
{
    let scope = scope_of(common, here);
    is_con_known(alloc, &scope, con)
}

/// Whether the constraint may split the case.
pub fn may_split_here(
    alloc: Global,
    common: &Common,
    here: &Place,
    con: &Con,
) -> Result<bool, Memory>
    ensures { IfOk result (λ may. may ≡ may_split (universal (whole common.now) (place_of here.now)) (place_of here.now).replaced con.now) }
{
    let universal = universal_of(common, here);
    may_split(alloc, &universal, con)
}
