//! How the constraint that is assumed in a state reads.
ghost use Rattle.std.specs.Prelude.{◌≡◌, IfOk, not};
ghost use Rattle.scasp_search_rules.specs.Successors.Assumptions.{as_read};
ghost use Rattle.scasp_search_rules.specs.Successors.Reading.{holds_always};
ghost use Rattle.scasp_search_rules.specs.Successors.Variables.{is_empty, universals_of};

use scasp_list::Memory;
use scasp_search_rules::State;
use scasp_search_terms::forms::{holds_always, read_simple};
use scasp_search_terms::variables::universals_of;
use scasp_syntax::Con;
use std::alloc::Global;

fn is_empty(xs: &[u64]) -> bool
    ensures { result ≡ is_empty xs.now }
{
    xs.is_empty()
}

/// Whether the constraint has a universal variable, as it reads.
pub fn is_general(alloc: Global, state: &State, constraint: &Con) -> Result<bool, Memory>
    ensures { IfOk result (λ general. general ≡ not (is_empty (universals_of state.now constraint.now))) }
{
    let universals = universals_of(alloc, state, constraint)?;
    Ok(!is_empty(universals.as_slice()))
}

/// Whether the constraint holds, as it reads, whatever its variables stand for.
pub fn reads_as_true(alloc: Global, state: &State, constraint: &Con) -> Result<bool, Memory>
    ensures { IfOk result (λ holds. holds ≡ holds_always (as_read state.now constraint.now)) }
{
    let read = read_simple(alloc, constraint, state.bound.as_slice())?;
    holds_always(alloc, &read)
}
