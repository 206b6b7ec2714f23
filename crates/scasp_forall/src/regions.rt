//! The constraints of the regions of covers, and of their remainders.
ghost use Rattle.std.specs.Prelude.{◌≡◌, ◌++◌, take, IfOk, OnOk};
ghost use Rattle.std.specs.List.{flat_map, list_any};
ghost use Rattle.scasp_forall.specs.Inside.Kept.{constraints_of, remaining_of};
ghost use Rattle.scasp_forall.specs.Inside.Listed.{listed};
ghost use Rattle.scasp_lines_places.specs.Places.Chains.{chained};

use crate::chains::{any_of, list_of};
use crate::scope::{Rest, Scope};
use scasp_lines_places::Chain;
use scasp_list::Memory;
use scasp_readings::ConTest;
use scasp_syntax::{Con, Cons};
use std::alloc::Global;

// ---- lists

/// Puts copies of the constraints behind those of a list.
fn push_region(alloc: Global, region: &Chain<Con>, list: &mut Cons) -> Result<(), Memory>
    ensures { OnOk result (list.new ≡ list.old ++ listed region.now) }
{
    for constraint in list_of(alloc, region)?.into_vec() {
        list.push(constraint)?;
    }
    Ok(())
}

/// Puts copies of the constraints of the covers' regions behind those of a list.
pub(crate) fn push_regions(alloc: Global, scopes: &[Scope], list: &mut Cons) -> Result<(), Memory>
    ensures { OnOk result (list.new ≡ list.old ++ flat_map (λ s. listed s.region) scopes.now) }
{
    for scope in scopes {
        push_region(alloc, &scope.region, list)?;
    }
    Ok(())
}

// ---- tests

/// Whether one of the constraints of the covers' regions passes.
pub(crate) fn any_of_regions<T: ConTest>(
    alloc: Global,
    test: &T,
    scopes: &[Scope],
) -> Result<bool, Memory>
    ensures { IfOk result (λ answer. answer ≡ list_any (T.holds test.now) (flat_map (λ s. listed s.region) scopes.now)) }
{
    for scope in scopes {
        if any_of(alloc, test, &scope.region)? {
            return Ok(true);
        }
    }
    Ok(false)
}

/// Whether one of the constraints of the remainders passes.
fn any_of_remainders<T: ConTest>(
    alloc: Global,
    test: &T,
    waiting: &Chain<Rest>,
) -> Result<bool, Memory>
    ensures { IfOk result (λ answer. answer ≡ list_any (T.holds test.now) (remaining_of (chained waiting.now))) }
{
    let mut rest = waiting;
    'remainders: while let Some((remainder, others)) = rest.first() {
        if any_of(alloc, test, &remainder.region)? {
            return Ok(true);
        }
        rest = others;
    }
    Ok(false)
}

/// Whether one of the constraints of the cover or of its remainders passes.
fn any_of_cover<T: ConTest>(alloc: Global, test: &T, scope: &Scope) -> Result<bool, Memory>
    ensures { IfOk result (λ answer. answer ≡ list_any (T.holds test.now) (constraints_of scope.now)) }
{
    if any_of(alloc, test, &scope.region)? {
        return Ok(true);
    }
    any_of_remainders(alloc, test, &scope.waiting)
}

/// Whether one of the constraints of the covers or of their remainders passes.
pub(crate) fn any_of_covers<T: ConTest>(
    alloc: Global,
    test: &T,
    scopes: &[Scope],
) -> Result<bool, Memory>
    ensures { IfOk result (λ answer. answer ≡ list_any (T.holds test.now) (flat_map constraints_of scopes.now)) }
{
    for scope in scopes {
        if any_of_cover(alloc, test, scope)? {
            return Ok(true);
        }
    }
    Ok(false)
}

/// The covers down to this depth.
#[tactic(auto, using(std::proofs::lemmas::List::take_all))]
pub(crate) fn down_to(scopes: &[Scope], depth: u64) -> &[Scope]
    ensures { result.now ≡ take depth scopes.now }
{
    if depth < scopes.len() as u64 {
        &scopes[..depth as usize]
    } else {
        scopes
    }
}
