//! Universal variables that are replaced.
ghost use Rattle.std.specs.Prelude.{◌≡◌, ◌++◌, ◌∷◌, [], IfOk};
ghost use Rattle.scasp_hint.specs.Satisfying.{sat};
ghost use Rattle.scasp_search_rules.specs.Successors.Equations.{replaced_if};
ghost use Rattle.scasp_search_rules.specs.Successors.Regions.{asked_with, context};
ghost use Rattle.scasp_search_rules.specs.Successors.Splits.{split_at};
ghost use Rattle.scasp_search_rules.specs.Successors.Steps.{goes_where};
ghost use Rattle.scasp_search_rules.specs.Successors.Variables.{depth_of};
ghost use Rattle.scasp_search_state.specs.Going.{Goes};
ghost use Rattle.scasp_syntax.specs.View.{tm_of};
ghost use Rattle.scasp_unify.specs.SimpleForm.{term_with};

use scasp_list::Memory;
use scasp_search_constraints::SearchErr;
use scasp_search_state::Situation;
use scasp_syntax::{Con, Term, copy};
use std::alloc::Global;

/// Whether the context with the constraint has a valuation; the case of the universal variable's cover is parted by it then.
fn split_where<M: Situation>(
    alloc: Global,
    at: &mut M,
    u: u64,
    constraint: &Con,
) -> Result<bool, SearchErr>
    ensures now { Goes result (goes_where sat (asked_with (M.now at.old) (context (M.now at.old) ++ constraint.now ∷ [])) (split_at (M.now at.old) (depth_of (M.now at.old) u) constraint.now)) (M.now at.new) }
    ensures points { IfOk result (λ _. M.points at.new ≡ M.points at.old) }
{
    if !at.asks_context_with(alloc, constraint)? {
        return Ok(false);
    }
    let depth = at.depth_of(u);
    at.split_at(alloc, depth, constraint)?;
    Ok(true)
}

/// The equation of a variable and a term.
fn replacing(alloc: Global, u: u64, term: &Term) -> Result<Con, Memory>
    ensures { IfOk result (λ equation. equation ≡ Con.Eq (Term.Var u) (term_with (tm_of term.now))) }
{
    Ok(Con::Eq(Term::Var(u), copy(alloc, term)?))
}

/// Whether the universal variable can be replaced by the term: the context with this has a valuation.
pub(crate) fn replaced_if<M: Situation>(
    alloc: Global,
    at: &mut M,
    u: u64,
    term: &Term,
) -> Result<bool, SearchErr>
    ensures now { Goes result (replaced_if sat (M.now at.old) u (tm_of term.now)) (M.now at.new) }
    ensures points { IfOk result (λ _. M.points at.new ≡ M.points at.old) }
{
    let equation = replacing(alloc, u, term)?;
    split_where(alloc, at, u, &equation)
}
