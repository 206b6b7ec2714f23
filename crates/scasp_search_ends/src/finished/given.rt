//! The given constraints of a certificate.
ghost use Rattle.std.specs.Prelude.{◌≡◌, ◌∷◌, IfOk, filter, map, not};
ghost use Rattle.scasp_checker_rules.specs.SameConstraint.{same_con};
ghost use Rattle.scasp_search_rules.specs.Successors.Answers.{given_lines, once};
ghost use Rattle.scasp_search_rules.specs.Successors.Reading.{holds_always};
ghost use Rattle.scasp_search_rules.specs.Successors.Regions.{givens};
ghost use Rattle.scasp_unify.specs.SimpleForm.{simple};

use scasp_checker_answer::same_con;
use scasp_list::Memory;
use scasp_search_calls::with_first;
use scasp_search_rules::State;
use scasp_search_terms::forms::{holds_always, read_simple};
use scasp_syntax::{Con, Cons, DeepCopy};
use std::alloc::Global;

/// Those of the constraints that are not this one.
fn without(alloc: Global, constraint: &Con, list: Cons) -> Result<Cons, Memory>
    ensures { IfOk result (λ made. made ≡ filter (λ d. not (same_con constraint.now d)) list) }
{
    let mut made = Cons::new(alloc);
    for other in list.into_vec() {
        if !same_con(alloc, constraint, &other)? {
            made.push(other)?;
        }
    }
    Ok(made)
}

/// The constraints, each at its first place alone.
pub(crate) fn once(alloc: Global, list: &[Con]) -> Result<Cons, Memory>
    ensures { IfOk result (λ made. made ≡ once list.now) }
{
    let mut made = Cons::new(alloc);
    let mut place = list.len();
    while place > 0 {
        place -= 1;
        made = put_once(alloc, &list[place], made)?;
    }
    Ok(made)
}

fn put_once(alloc: Global, constraint: &Con, behind: Cons) -> Result<Cons, Memory>
    ensures { IfOk result (λ made. made ≡ constraint.now ∷ filter (λ d. not (same_con constraint.now d)) behind) }
{
    let others = without(alloc, constraint, behind)?;
    with_first(alloc, constraint.copy(alloc)?, others)
}

/// The given constraints as they read, in simple form, but for those that hold always.
fn given_simple(alloc: Global, state: &State) -> Result<Cons, Memory>
    ensures { IfOk result (λ made. made ≡ filter (λ c. not (holds_always c)) (map simple (givens state.now))) }
{
    let mut made = Cons::new(alloc);
    for constraint in state.given.as_slice() {
        let read = read_simple(alloc, constraint, state.bound.as_slice())?;
        if !holds_always(alloc, &read)? {
            made.push(read)?;
        }
    }
    Ok(made)
}

/// The given constraints of the certificate, before their variables get their numbers.
pub(crate) fn given_lines(alloc: Global, state: &State) -> Result<Cons, Memory>
    ensures { IfOk result (λ made. made ≡ given_lines state.now) }
{
    let simple = given_simple(alloc, state)?;
    once(alloc, simple.as_slice())
}
