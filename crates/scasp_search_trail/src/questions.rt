//! What the present state says of variables and constraints, and whether lists have valuations.
ghost use Rattle.std.specs.Prelude.{◌≡◌, [], ◌∷◌, ◌++◌, IfOk, false, filter, if◌then◌else◌, not, slice_get, true};
ghost use Rattle.scasp_hint.specs.Satisfying.{sat};
ghost use Rattle.scasp_search_constraints.specs.Assuming.Taken.{Gives};
ghost use Rattle.scasp_search_rules.specs.Successors.Assumptions.{against, along, as_read, asked_for, status};
ghost use Rattle.scasp_search_rules.specs.Successors.Reading.{holds_always};
ghost use Rattle.scasp_search_rules.specs.Successors.Regions.{asked_with, context, is_constrained, regions};
ghost use Rattle.scasp_search_rules.specs.Successors.Splits.{is_number_by};
ghost use Rattle.scasp_search_rules.specs.Successors.Variables.{is_empty, is_kind_universal, made_or, universals_of};
ghost use Rattle.scasp_search_trail.specs.States.{state_of};

use crate::parts::Parts;
use scasp_list::Memory;
use scasp_readings::{con_vars, has_number_test, read_simple, stands_in};
use scasp_search_constraints::SearchErr;
use scasp_search_rules::Status;
use scasp_search_terms::forms::{holds_always, negated};
use scasp_syntax::{Con, Cons, DeepCopy, VarList};
use scasp_variables::Variables;
use std::alloc::Global;

// ---- variables

/// Those of the variables that are universal, in order.
fn universal_among(alloc: Global, variables: &Variables, xs: &[u64]) -> Result<VarList, Memory>
    ensures { IfOk result (λ found. found ≡ filter (λ x. is_kind_universal (made_or (slice_get variables.now.now x)).kind) xs.now) }
{
    let mut found = VarList::new(alloc);
    for x in xs {
        if variables.is_universal(*x) {
            found.push(*x)?;
        }
    }
    Ok(found)
}

/// The universal variables of the constraint, as it reads.
pub(crate) fn universals_of(
    alloc: Global,
    parts: &Parts,
    constraint: &Con,
) -> Result<VarList, Memory>
    ensures { IfOk result (λ found. found ≡ universals_of (state_of parts.now) constraint.now) }
{
    let all = con_vars(alloc, parts.store.bound(), constraint)?;
    universal_among(alloc, &parts.variables, all.as_slice())
}

/// Whether the constraint has a universal variable, as it reads.
fn is_general(alloc: Global, parts: &Parts, constraint: &Con) -> Result<bool, Memory>
    ensures { IfOk result (λ general. general ≡ not (is_empty (universals_of (state_of parts.now) constraint.now))) }
{
    let universals = universals_of(alloc, parts, constraint)?;
    Ok(!is_empty(universals.as_slice()))
}

fn is_empty(xs: &[u64]) -> bool
    ensures { result ≡ is_empty xs.now }
{
    xs.is_empty()
}

// ---- constraints that hold

/// Whether the variable stands in a given constraint, in one of a region or in one of a remainder.
#[tactic(auto, using(crate::proofs::CoverLemmas::any_constrained))]
pub(crate) fn is_constrained(alloc: Global, parts: &Parts, x: u64) -> Result<bool, Memory>
    ensures { IfOk result (λ stands. stands ≡ is_constrained (state_of parts.now) x) }
{
    let bound = parts.store.bound();
    if stands_in(alloc, bound, x, parts.store.given())? {
        return Ok(true);
    }
    parts.scopes.is_constrained(alloc, bound, x)
}

/// Whether the test that the variable is a number is given, or stands in a region down to this depth.
#[tactic(auto, using(crate::proofs::CoverLemmas::any_down))]
pub(crate) fn is_number_by(alloc: Global, parts: &Parts, depth: u64, x: u64) -> Result<bool, Memory>
    ensures { IfOk result (λ is. is ≡ is_number_by (state_of parts.now) depth x) }
{
    let bound = parts.store.bound();
    if has_number_test(alloc, bound, x, parts.store.given())? {
        return Ok(true);
    }
    parts.scopes.is_number_by(alloc, bound, depth, x)
}

// ---- lists that are asked

/// The constraints of the regions, the outermost first.
#[tactic(auto, using(crate::proofs::CoverLemmas::same_regions))]
pub(crate) fn regions(alloc: Global, parts: &Parts) -> Result<Cons, Memory>
    ensures { IfOk result (λ made. made ≡ regions (state_of parts.now).covers) }
{
    let mut list = Cons::new(alloc);
    parts.scopes.push_regions(alloc, &mut list)?;
    Ok(list)
}

/// Whether the given constraints have a valuation together with these.
pub(crate) fn asks(alloc: Global, parts: &mut Parts, more: &[Con]) -> Result<bool, SearchErr>
    ensures answer { Gives result (sat (asked_with (state_of parts.old) ((state_of parts.old).given ++ more.now))) (asked_with (state_of parts.old) ((state_of parts.old).given ++ more.now) ∷ []) }
    ensures same { parts.new ≡ parts.old }
{
    parts.store.passes(alloc, more)
}

/// The constraints of the regions, where the whole context is asked, and then one more.
fn more_of(alloc: Global, parts: &Parts, by_context: bool, last: Con) -> Result<Cons, Memory>
    ensures { IfOk result (λ more. (state_of parts.now).given ++ more ≡ (if by_context then context (state_of parts.now) else (state_of parts.now).given) ++ last ∷ []) }
{
    let mut more = if by_context {
        regions(alloc, parts)?
    } else {
        Cons::new(alloc)
    };
    more.push(last)?;
    Ok(more)
}

/// Whether the given constraints, or the whole context, have a valuation together with one more.
pub(crate) fn asks_with(
    alloc: Global,
    parts: &mut Parts,
    by_context: bool,
    last: Con,
) -> Result<bool, SearchErr>
    ensures answer { Gives result (sat (asked_with (state_of parts.old) ((if by_context then context (state_of parts.old) else (state_of parts.old).given) ++ last ∷ []))) (asked_with (state_of parts.old) ((if by_context then context (state_of parts.old) else (state_of parts.old).given) ++ last ∷ []) ∷ []) }
    ensures same { parts.new ≡ parts.old }
{
    let more = more_of(alloc, parts, by_context, last)?;
    asks(alloc, parts, more.as_slice())
}

// ---- the status

/// Whether what the constraint is judged by has a valuation with its negation.
fn passes_against(
    alloc: Global,
    parts: &mut Parts,
    constraint: &Con,
    is_general: bool,
) -> Result<bool, SearchErr>
    requires { is_general ≡ not (is_empty (universals_of (state_of parts.old) constraint.now)) }
    ensures answer { Gives result (sat (against (state_of parts.old) constraint.now)) (against (state_of parts.old) constraint.now ∷ []) }
    ensures same { parts.new ≡ parts.old }
{
    let negation = negated(alloc, parts.variables.next_variable(), constraint)?;
    asks_with(alloc, parts, is_general, negation)
}

/// Whether what the constraint is judged by has a valuation with it.
fn passes_along(
    alloc: Global,
    parts: &mut Parts,
    constraint: &Con,
    is_general: bool,
) -> Result<bool, SearchErr>
    requires { is_general ≡ not (is_empty (universals_of (state_of parts.old) constraint.now)) }
    ensures answer { Gives result (sat (along (state_of parts.old) constraint.now)) (along (state_of parts.old) constraint.now ∷ []) }
    ensures same { parts.new ≡ parts.old }
{
    asks_with(alloc, parts, is_general, constraint.copy(alloc)?)
}

/// What becomes of the state where a constraint that may be false is assumed.
fn judged_along(
    alloc: Global,
    parts: &mut Parts,
    constraint: &Con,
    is_general: bool,
) -> Result<Status, SearchErr>
    requires general { is_general ≡ not (is_empty (universals_of (state_of parts.old) constraint.now)) }
    requires open { holds_always (as_read (state_of parts.old) constraint.now) ≡ false }
    requires doubt { sat (against (state_of parts.old) constraint.now) ≡ true }
    ensures status { Gives result (status sat (state_of parts.old) constraint.now) (asked_for sat (state_of parts.old) constraint.now) }
    ensures same { parts.new ≡ parts.old }
{
    if !passes_along(alloc, parts, constraint, is_general)? {
        return Ok(Status::Impossible);
    }
    if is_general {
        Ok(Status::Parts)
    } else {
        Ok(Status::Added)
    }
}

/// What becomes of the state where a constraint that does not hold always is assumed.
fn judged(alloc: Global, parts: &mut Parts, constraint: &Con) -> Result<Status, SearchErr>
    requires { holds_always (as_read (state_of parts.old) constraint.now) ≡ false }
    ensures status { Gives result (status sat (state_of parts.old) constraint.now) (asked_for sat (state_of parts.old) constraint.now) }
    ensures same { parts.new ≡ parts.old }
{
    let is_general = is_general(alloc, parts, constraint)?;
    if !passes_against(alloc, parts, constraint, is_general)? {
        return Ok(Status::Entailed);
    }
    judged_along(alloc, parts, constraint, is_general)
}

/// Whether the constraint holds, as it reads, whatever its variables stand for.
fn reads_as_true(alloc: Global, parts: &Parts, constraint: &Con) -> Result<bool, Memory>
    ensures { IfOk result (λ holds. holds ≡ holds_always (as_read (state_of parts.now) constraint.now)) }
{
    let read = read_simple(alloc, parts.store.bound(), constraint)?;
    holds_always(alloc, &read)
}

/// What becomes of the state where the constraint is assumed. Where it holds as it reads, nothing is asked. It is entailed where its
/// negation has no valuation, and impossible where it has none itself.
pub(crate) fn status(
    alloc: Global,
    parts: &mut Parts,
    constraint: &Con,
) -> Result<Status, SearchErr>
    ensures status { Gives result (status sat (state_of parts.old) constraint.now) (asked_for sat (state_of parts.old) constraint.now) }
    ensures same { parts.new ≡ parts.old }
{
    if reads_as_true(alloc, parts, constraint)? {
        Ok(Status::Entailed)
    } else {
        judged(alloc, parts, constraint)
    }
}
