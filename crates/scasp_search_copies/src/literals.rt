//! Loops that lead out of literals.
ghost use Rattle.std.specs.Prelude.{◌≡◌, IfOk};
ghost use Rattle.scasp_search_rules.specs.Successors.Calls.{ancestors, marked};

use scasp_list::Memory;
use scasp_search_calls::{first_number, marked_by};
use scasp_search_rules::State;
use std::alloc::Global;

/// The state in which a positive loop leads out of the innermost literal that is open.
#[tactic(auto, using(scasp_search_calls::proofs::CallsLemmas::OpenLemmas::marked_first))]
pub(crate) fn marked(alloc: Global, state: State) -> Result<State, Memory>
    ensures { IfOk result (λ made. made ≡ marked (ancestors state) state) }
{
    let number = first_number(state.literals.as_slice());
    marked_by(alloc, number, state)
}
