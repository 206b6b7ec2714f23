//! Variables that get a name with arguments.
ghost use Rattle.std.specs.Prelude.{◌≡◌, IfOk, length};
ghost use Rattle.scasp_hint.specs.Satisfying.{sat};
ghost use Rattle.scasp_search_rules.specs.Successors.Equations.{becomes_shape, equations, variable_app};
ghost use Rattle.scasp_search_rules.specs.Successors.Regions.{before};
ghost use Rattle.scasp_search_rules.specs.Successors.Steps.{each};
ghost use Rattle.scasp_search_rules.specs.Successors.Variables.{next_variable};
ghost use Rattle.scasp_search_state.specs.Going.{Goes};
ghost use Rattle.scasp_syntax.specs.Tm.{items};
ghost use Rattle.scasp_unify.specs.Negations.{new_parts};
ghost use Rattle.scasp_unify.specs.Parts.{occurs_among};

use crate::bindings::bound_to;
use crate::replacements::replaced_if;
use scasp_list::Memory;
use scasp_name::NameId;
use scasp_search_constraints::{SearchErr, among, equations};
use scasp_search_rules::Kind;
use scasp_search_state::Situation;
use scasp_search_terms::constraints::push_all_vars;
use scasp_search_terms::forms::numbered_parts;
use scasp_syntax::{Term, Terms, VarList};
use std::alloc::Global;

/// Whether the variable stands in the terms.
#[tactic(auto, using(crate::proofs::OccursLemmas::among_all_vars))]
pub(crate) fn occurs_among(alloc: Global, x: u64, terms: &Terms) -> Result<bool, Memory>
    ensures { IfOk result (λ occurs. occurs ≡ occurs_among x terms.now) }
{
    let mut vars = VarList::new(alloc);
    push_all_vars(terms, &mut vars)?;
    Ok(among(x, vars.as_slice()))
}

/// Whether there is a state in which the variable has the name, with so many new arguments.
pub(crate) fn becomes_shape<M: Situation>(
    alloc: Global,
    at: &mut M,
    x: u64,
    name: NameId,
    arity: u64,
) -> Result<bool, SearchErr>
    ensures now { Goes result (becomes_shape sat (M.now at.old) x name arity) (M.now at.new) }
    ensures points { IfOk result (λ _. M.points at.new ≡ M.points at.old) }
{
    let shape = Term::App(name, numbered_parts(alloc, at.next_variable(), arity)?);
    let depth = at.depth_of(x);
    if at.is_universal(x) {
        at.make(Kind::Universal, depth, arity)?;
        replaced_if(alloc, at, x, &shape)
    } else {
        at.make(Kind::Existential, depth, arity)?;
        bound_to(alloc, at, x, shape)
    }
}

/// Whether the variable can have the name; its new arguments are to be equal to these then.
fn shaped_by<M: Situation>(
    alloc: Global,
    at: &mut M,
    x: u64,
    name: NameId,
    args: &Terms,
) -> Result<bool, SearchErr>
    ensures now { Goes result (each (before (equations (new_parts (next_variable (M.now at.old)) (length (items args.now))) args.now)) (becomes_shape sat (M.now at.old) x name (length (items args.now)))) (M.now at.new) }
    ensures points { IfOk result (λ _. M.points at.new ≡ M.points at.old) }
{
    let parts = numbered_parts(alloc, at.next_variable(), args.len() as u64)?;
    let equations = equations(alloc, &parts, args)?;
    if !becomes_shape(alloc, at, x, name, args.len() as u64)? {
        return Ok(false);
    }
    at.put_all(equations)?;
    Ok(true)
}

/// Whether there is a state in which a variable and a name with arguments are equal; there is none where the variable
/// stands in them.
pub(crate) fn variable_app<M: Situation>(
    alloc: Global,
    at: &mut M,
    x: u64,
    name: NameId,
    args: &Terms,
) -> Result<bool, SearchErr>
    ensures now { Goes result (variable_app sat (M.now at.old) x name args.now) (M.now at.new) }
    ensures points { IfOk result (λ _. M.points at.new ≡ M.points at.old) }
{
    if occurs_among(alloc, x, args)? {
        return Ok(false);
    }
    shaped_by(alloc, at, x, name, args)
}
