//! Where a variable stands in the constraints of a state.
ghost use Rattle.std.specs.Prelude.{◌≡◌, ◌++◌, IfOk};
ghost use Rattle.std.specs.List.{list_any, flat_map};
ghost use Rattle.scasp_search_rules.specs.Successors.Reading.{among, con_vars};
ghost use Rattle.scasp_search_rules.specs.Successors.Regions.{is_constrained};
ghost use Rattle.scasp_unify.specs.Solving.{sub_of};

use scasp_list::Memory;
use scasp_search_rules::{Cover, Remainder, State};
use scasp_search_terms::constraints::con_vars;
use scasp_syntax::Con;
use scasp_unify::Binding;
use std::alloc::Global;

/// Whether the variable is among these.
pub fn among(x: u64, xs: &[u64]) -> bool
    ensures { result ≡ among x xs.now }
{
    xs.iter().any(|y| x == *y)
}

/// Whether the variable stands in one of the constraints, as the bindings make them.
fn stands_in(
    alloc: Global,
    x: u64,
    constraints: &[Con],
    bindings: &[Binding],
) -> Result<bool, Memory>
    ensures { IfOk result (λ stands. stands ≡ list_any (λ c. among x (con_vars (sub_of bindings.now) c)) constraints.now) }
{
    for constraint in constraints {
        let vars = con_vars(alloc, constraint, bindings)?;
        if among(x, vars.as_slice()) {
            return Ok(true);
        }
    }
    Ok(false)
}

/// Whether the variable stands in a region of the remainders.
fn stands_in_remainders(
    alloc: Global,
    x: u64,
    remainders: &[Remainder],
    bindings: &[Binding],
) -> Result<bool, Memory>
    ensures { IfOk result (λ stands. stands ≡ list_any (λ c. among x (con_vars (sub_of bindings.now) c)) (flat_map (λ r. r.region) remainders.now)) }
{
    for remainder in remainders {
        if stands_in(alloc, x, remainder.region.as_slice(), bindings)? {
            return Ok(true);
        }
    }
    Ok(false)
}

/// Whether the variable stands in the region of the cover or of one of its remainders.
fn stands_in_cover(
    alloc: Global,
    x: u64,
    cover: &Cover,
    bindings: &[Binding],
) -> Result<bool, Memory>
    ensures { IfOk result (λ stands. stands ≡ list_any (λ c. among x (con_vars (sub_of bindings.now) c)) (cover.now.region ++ flat_map (λ r. r.region) cover.now.waiting)) }
{
    if stands_in(alloc, x, cover.region.as_slice(), bindings)? {
        return Ok(true);
    }
    stands_in_remainders(alloc, x, cover.waiting.as_slice(), bindings)
}

/// Whether the variable stands in a region of the covers or of their remainders.
fn stands_in_covers(
    alloc: Global,
    x: u64,
    covers: &[Cover],
    bindings: &[Binding],
) -> Result<bool, Memory>
    ensures { IfOk result (λ stands. stands ≡ list_any (λ c. among x (con_vars (sub_of bindings.now) c)) (flat_map (λ c. c.region ++ flat_map (λ r. r.region) c.waiting) covers.now)) }
{
    for cover in covers {
        if stands_in_cover(alloc, x, cover, bindings)? {
            return Ok(true);
        }
    }
    Ok(false)
}

/// Whether the variable stands in a given constraint, in one of a region or in one of a remainder.
pub fn is_constrained(alloc: Global, state: &State, x: u64) -> Result<bool, Memory>
    ensures { IfOk result (λ stands. stands ≡ is_constrained state.now x) }
{
    let bindings = state.bound.as_slice();
    if stands_in(alloc, x, state.given.as_slice(), bindings)? {
        return Ok(true);
    }
    stands_in_covers(alloc, x, state.covers.as_slice(), bindings)
}
