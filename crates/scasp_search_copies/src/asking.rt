//! What is asked of a state: each list is built from nothing.
ghost use Rattle.std.specs.Prelude.{◌≡◌, [], ◌∷◌, ◌++◌, map, IfOk, false, not, if◌then◌else◌};
ghost use Rattle.scasp_hint.specs.Satisfying.{sat};
ghost use Rattle.scasp_search_constraints.specs.Assuming.Taken.{Gives};
ghost use Rattle.scasp_search_rules.specs.Successors.Assumptions.{against, along, as_read, asked_for, status};
ghost use Rattle.scasp_search_rules.specs.Successors.Reading.{holds_always};
ghost use Rattle.scasp_search_rules.specs.Successors.Regions.{asked_with, context, equation};
ghost use Rattle.scasp_search_rules.specs.Successors.Variables.{is_empty, universals_of};

use scasp_list::Memory;
use scasp_search_constraints::{SearchErr, is_general, passes, reads_as_true};
use scasp_search_rules::{State, Status};
use scasp_search_terms::forms::negated;
use scasp_search_terms::regions::{push_copies, push_regions};
use scasp_syntax::{Con, Cons, DeepCopy, Term};
use scasp_unify::Binding;
use std::alloc::Global;

// ---- lists that are asked

fn equation(alloc: Global, binding: &Binding) -> Result<Con, Memory>
    ensures { IfOk result (λ made. made ≡ equation binding.now) }
{
    Ok(Con::Eq(Term::Var(binding.x), binding.term.copy(alloc)?))
}

fn equations(alloc: Global, bindings: &[Binding]) -> Result<Cons, Memory>
    ensures { IfOk result (λ made. made ≡ map equation bindings.now) }
{
    let mut made = Cons::new(alloc);
    for binding in bindings {
        made.push(equation(alloc, binding)?)?;
    }
    Ok(made)
}

/// The bindings as equations and then the given constraints: the list by which a binding is judged.
pub(crate) fn given_list(alloc: Global, state: &State) -> Result<Cons, Memory>
    ensures { IfOk result (λ list. list ≡ asked_with state.now state.now.given) }
{
    let mut list = equations(alloc, state.bound.as_slice())?;
    push_copies(alloc, state.given.as_slice(), &mut list)?;
    Ok(list)
}

/// The bindings as equations and then the context: the list by which a case is judged.
pub(crate) fn context_list(alloc: Global, state: &State) -> Result<Cons, Memory>
    ensures { IfOk result (λ list. list ≡ asked_with state.now (context state.now)) }
{
    let mut list = given_list(alloc, state)?;
    push_regions(alloc, state.covers.as_slice(), &mut list)?;
    Ok(list)
}

/// The bindings as equations, and the given constraints or the whole context.
fn judging_list(alloc: Global, state: &State, by_context: bool) -> Result<Cons, Memory>
    ensures { IfOk result (λ list. list ≡ asked_with state.now (if by_context then context state.now else state.now.given)) }
{
    if by_context {
        context_list(alloc, state)
    } else {
        given_list(alloc, state)
    }
}

/// The list that is asked of the given constraints, or of the whole context, and one more constraint.
pub(crate) fn asked_list(
    alloc: Global,
    state: &State,
    by_context: bool,
    last: Con,
) -> Result<Cons, Memory>
    ensures { IfOk result (λ list. list ≡ asked_with state.now ((if by_context then context state.now else state.now.given) ++ last ∷ [])) }
{
    let mut list = judging_list(alloc, state, by_context)?;
    list.push(last)?;
    Ok(list)
}

// ---- what becomes of a state where a constraint is assumed

/// Whether what the constraint is judged by has a valuation with its negation.
fn passes_against(
    alloc: Global,
    state: &State,
    constraint: &Con,
    is_general: bool,
) -> Result<bool, SearchErr>
    requires { is_general ≡ not (is_empty (universals_of state.now constraint.now)) }
    ensures { Gives result (sat (against state.now constraint.now)) (against state.now constraint.now ∷ []) }
{
    let negation = negated(alloc, state.made.len() as u64, constraint)?;
    let list = asked_list(alloc, state, is_general, negation)?;
    passes(alloc, list.as_slice())
}

/// Whether what the constraint is judged by has a valuation with it.
fn passes_along(
    alloc: Global,
    state: &State,
    constraint: &Con,
    is_general: bool,
) -> Result<bool, SearchErr>
    requires { is_general ≡ not (is_empty (universals_of state.now constraint.now)) }
    ensures { Gives result (sat (along state.now constraint.now)) (along state.now constraint.now ∷ []) }
{
    let list = asked_list(alloc, state, is_general, constraint.copy(alloc)?)?;
    passes(alloc, list.as_slice())
}

/// What becomes of the state where a constraint that does not hold always is assumed.
fn judged(alloc: Global, state: &State, constraint: &Con) -> Result<Status, SearchErr>
    requires { holds_always (as_read state.now constraint.now) ≡ false }
    ensures { Gives result (status sat state.now constraint.now) (asked_for sat state.now constraint.now) }
{
    let is_general = is_general(alloc, state, constraint)?;
    if !passes_against(alloc, state, constraint, is_general)? {
        return Ok(Status::Entailed);
    }
    if !passes_along(alloc, state, constraint, is_general)? {
        return Ok(Status::Impossible);
    }
    if is_general {
        Ok(Status::Parts)
    } else {
        Ok(Status::Added)
    }
}

/// What becomes of the state where the constraint is assumed. Where it holds as it reads, nothing is asked. It is
/// entailed where its negation has no valuation, and impossible where it has none itself.
pub(crate) fn status(alloc: Global, state: &State, constraint: &Con) -> Result<Status, SearchErr>
    ensures { Gives result (status sat state.now constraint.now) (asked_for sat state.now constraint.now) }
{
    if reads_as_true(alloc, state, constraint)? {
        Ok(Status::Entailed)
    } else {
        judged(alloc, state, constraint)
    }
}
