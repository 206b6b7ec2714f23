//! Variables that are bound.
ghost use Rattle.std.specs.Prelude.{◌≡◌, IfOk, OnOk};
ghost use Rattle.scasp_hint.specs.Satisfying.{sat};
ghost use Rattle.scasp_search_rules.specs.Successors.Equations.{bound_if};
ghost use Rattle.scasp_search_rules.specs.Successors.Variables.{bind};
ghost use Rattle.scasp_search_state.specs.Going.{Goes};
ghost use Rattle.scasp_syntax.specs.View.{tm_of};

use scasp_list::Memory;
use scasp_search_constraints::SearchErr;
use scasp_search_state::Situation;
use scasp_search_terms::constraints::push_vars;
use scasp_syntax::{Term, VarList};
use std::alloc::Global;

/// The variable is bound to the term, whose existential variables get at most its depth.
pub fn bind<M: Situation>(alloc: Global, at: &mut M, x: u64, term: Term) -> Result<(), Memory>
    ensures now { OnOk result (M.now at.new ≡ bind (M.now at.old) x (tm_of term)) }
    ensures points { OnOk result (M.points at.new ≡ M.points at.old) }
{
    let mut vars = VarList::new(alloc);
    push_vars(&term, &mut vars)?;
    let depth = at.depth_of(x);
    at.bind_to(x, term)?;
    at.lower(depth, vars.as_slice())?;
    Ok(())
}

/// Whether the given constraints keep a valuation; the state stays.
#[tactic(auto, using(crate::proofs::GoingLemmas::goes_by_answer))]
fn bound_if<M: Situation>(alloc: Global, at: &mut M) -> Result<bool, SearchErr>
    ensures now { Goes result (bound_if sat (M.now at.old)) (M.now at.new) }
    ensures points { IfOk result (λ _. M.points at.new ≡ M.points at.old) }
{
    at.asks_given(alloc)
}

/// Whether the given constraints keep a valuation where the variable is bound to the term.
pub(crate) fn bound_to<M: Situation>(
    alloc: Global,
    at: &mut M,
    x: u64,
    term: Term,
) -> Result<bool, SearchErr>
    ensures now { Goes result (bound_if sat (bind (M.now at.old) x (tm_of term))) (M.now at.new) }
    ensures points { IfOk result (λ _. M.points at.new ≡ M.points at.old) }
{
    bind(alloc, at, x, term)?;
    bound_if(alloc, at)
}
