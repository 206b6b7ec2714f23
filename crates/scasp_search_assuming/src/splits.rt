//! Splits of the case of the innermost cover that owns a universal variable of the constraint.
ghost use Rattle.std.specs.Prelude.{◌≡◌, IfOk, OnOk, map};
ghost use Rattle.std.specs.List.{fold};
ghost use Rattle.scasp_num.specs.declared.linear.Coeff.{Coeff as ThisCoeff};
ghost use Rattle.scasp_search_rules.specs.Successors.Splits.{greatest, numbered_to, owner, split, split_at, split_by};
ghost use Rattle.scasp_search_rules.specs.Successors.Variables.{depth_of};

use scasp_list::Memory;
use scasp_num::{Coeff, Row};
use scasp_search_state::Situation;
use scasp_syntax::{Con, Term};
use std::alloc::Global;

// ---- the cover whose case is parted

/// The greatest depth of the variables, and 0 where there is none.
fn greatest_depth<M: Situation>(at: &M, xs: &[u64]) -> u64
    ensures { result ≡ greatest (map (depth_of (M.now at.now)) xs.now) }
{
    let mut greatest = 0;
    for x in xs {
        greatest = at.depth_of(*x).max(greatest);
    }
    greatest
}

/// The depth of the innermost cover that owns a universal variable of the constraint.
fn owner<M: Situation>(alloc: Global, at: &M, constraint: &Con) -> Result<u64, Memory>
    ensures { IfOk result (λ depth. depth ≡ owner (M.now at.now) constraint.now) }
{
    let universals = at.universals_of(alloc, constraint)?;
    Ok(greatest_depth(at, universals.as_slice()))
}

// ---- the number tests of a row

/// The test that the variable is a number is made, where it does not stand.
fn numbered_to<M: Situation>(alloc: Global, at: &mut M, depth: u64, x: u64) -> Result<(), Memory>
    ensures now { OnOk result (M.now at.new ≡ numbered_to depth (M.now at.old) x) }
    ensures points { OnOk result (M.points at.new ≡ M.points at.old) }
{
    if at.is_number_by(alloc, depth, x)? {
        return Ok(());
    }
    let test = Con::Num(Term::Var(x));
    if at.is_universal(x) {
        let owner = at.depth_of(x);
        at.split_at(alloc, owner, &test)
    } else {
        at.give(test)
    }
}

/// The tests that the variables of a row are numbers are made, where they do not stand.
fn all_numbered_to<M: Situation>(
    alloc: Global,
    at: &mut M,
    depth: u64,
    coeffs: &[Coeff],
) -> Result<(), Memory>
    ensures now { OnOk result (M.now at.new ≡ fold (numbered_to depth) (M.now at.old) (map (λ (k : ThisCoeff). k.x) coeffs.now)) }
    ensures points { OnOk result (M.points at.new ≡ M.points at.old) }
{
    for coeff in coeffs {
        numbered_to(alloc, at, depth, coeff.x)?;
    }
    Ok(())
}

// ---- the split

/// The case of the cover of this depth is parted by the row, behind the number tests of its variables.
fn split_by_row<M: Situation>(
    alloc: Global,
    at: &mut M,
    depth: u64,
    row: &Row,
    constraint: &Con,
) -> Result<(), Memory>
    ensures now { OnOk result (M.now at.new ≡ split_at (fold (numbered_to depth) (M.now at.old) (map (λ (k : ThisCoeff). k.x) row.now.coeffs)) depth constraint.now) }
    ensures points { OnOk result (M.points at.new ≡ M.points at.old) }
{
    all_numbered_to(alloc, at, depth, row.coeffs().as_slice())?;
    at.split_at(alloc, depth, constraint)
}

/// The case of the cover of this depth is parted by the constraint, behind the number tests of a row.
fn split_by<M: Situation>(
    alloc: Global,
    at: &mut M,
    depth: u64,
    constraint: &Con,
) -> Result<(), Memory>
    ensures now { OnOk result (M.now at.new ≡ split_by (M.now at.old) depth constraint.now) }
    ensures points { OnOk result (M.points at.new ≡ M.points at.old) }
{
    match constraint {
        Con::Row(row) => split_by_row(alloc, at, depth, row, constraint),
        Con::Eq(_, _) | Con::Neq(_, _) | Con::NotShape(_, _, _) | Con::Num(_) | Con::NotNum(_) => {
            at.split_at(alloc, depth, constraint)
        }
    }
}

/// The case of the innermost cover that owns a universal variable of the constraint, which reads as it stands, is parted
/// by it.
pub fn split<M: Situation>(alloc: Global, at: &mut M, constraint: &Con) -> Result<(), Memory>
    ensures now { OnOk result (M.now at.new ≡ split (M.now at.old) constraint.now) }
    ensures points { OnOk result (M.points at.new ≡ M.points at.old) }
{
    let depth = owner(alloc, at, constraint)?;
    split_by(alloc, at, depth, constraint)
}
