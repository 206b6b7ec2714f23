//! What the equations of a list of constraints make of its variables.
ghost use Rattle.std.specs.Prelude.{◌≡◌, ℕ, [], ◌∷◌, IfOk, is_some, nat_eq, option_to_list};
ghost use Rattle.std.specs.List.{list_any};
ghost use Rattle.scasp_syntax.specs.Tm.{var};
ghost use Rattle.scasp_unify.specs.Numbers.{is_num_of};
ghost use Rattle.scasp_unify.specs.Resolver.{resolver, resolver_after, taken, unifies};
ghost use Rattle.scasp_unify.specs.ResolvedLists.{ResolvesList};
ghost use Rattle.scasp_unify.specs.Solving.{sub_of};
ghost use Rattle.scasp_unify.specs.Unification.{Absorbs};

use crate::bindings::{Binding, resolve};
use crate::solving::unify;
use scasp_list::Memory;
use scasp_syntax::{Con, Term};
use std::alloc::Global;

/// What the equations of a list make of its variables; an equation that does not unify is passed over.
#[derive(Debug, Drop)]
pub struct Resolver {
    /// The bindings that the equations make, in order.
    pub bindings: Vec<Binding>,
    /// The unbound variables of which the list says that they are numbers.
    pub numbers: Vec<u64>,
    /// Whether all equations unify.
    pub unifies: bool,
}

/// Unifies the sides of the constraint, where it is an equation; false where they do not unify, and then nothing more is
/// bound.
fn take(alloc: Global, constraint: &Con, bindings: &mut Vec<Binding>) -> Result<bool, Memory>
    requires { Absorbs (sub_of bindings.old.items) (sub_of bindings.old.items) }
    ensures unified { IfOk result (λ is_taken. is_taken ≡ is_some (taken (sub_of bindings.old.items) (constraint.now ∷ []))) }
    ensures bound { IfOk result (λ is_taken. sub_of bindings.new.items ≡ resolver_after (sub_of bindings.old.items) (constraint.now ∷ [])) }
    ensures resolved { IfOk result (λ is_taken. Absorbs (sub_of bindings.new.items) (sub_of bindings.new.items)) }
{
    match constraint {
        Con::Eq(left, right) => unify(alloc, left, right, bindings),
        Con::Neq(_, _) | Con::NotShape(_, _, _) | Con::Num(_) | Con::NotNum(_) | Con::Row(_) => {
            Ok(true)
        }
    }
}

/// Unifies the equations of the list in order; false where one of them does not unify.
fn take_all(alloc: Global, constraints: &[Con], bindings: &mut Vec<Binding>) -> Result<bool, Memory>
    requires { bindings.old.items ≡ [] }
    ensures bound { IfOk result (λ is_taken. sub_of bindings.new.items ≡ resolver constraints.now) }
    ensures unifies { IfOk result (λ is_taken. is_taken ≡ unifies constraints.now) }
{
    let mut unifies = true;
    for constraint in constraints {
        let is_taken = take(alloc, constraint, bindings)?;
        unifies = unifies && is_taken;
    }
    Ok(unifies)
}

/// The unbound variables of which the list says that they are numbers.
fn number_variables(
    alloc: Global,
    constraints: &[Con],
    bindings: &[Binding],
) -> Result<Vec<u64>, Memory>
    ensures { IfOk result (λ made. (y : ℕ) → list_any (λ z. nat_eq z y) made.items ≡ list_any (is_num_of (sub_of bindings.now) (var y)) constraints.now) }
{
    let mut numbers = Vec::new(alloc);
    for constraint in constraints {
        if let Some(y) = number_variable(alloc, constraint, bindings)? {
            numbers.push(y)?;
        }
    }
    Ok(numbers)
}

/// The unbound variable of which the constraint says that it is a number.
fn number_variable(
    alloc: Global,
    constraint: &Con,
    bindings: &[Binding],
) -> Result<Option<u64>, Memory>
    ensures { IfOk result (λ found. (y : ℕ) → list_any (λ z. nat_eq z y) (option_to_list found) ≡ is_num_of (sub_of bindings.now) (var y) constraint.now) }
{
    match constraint {
        Con::Num(term) => match resolve(alloc, term, bindings)? {
            Term::Var(y) => Ok(Some(y)),
            Term::Num(_) | Term::App(_, _) => Ok(None),
        },
        Con::Eq(_, _) | Con::Neq(_, _) | Con::NotShape(_, _, _) | Con::NotNum(_) | Con::Row(_) => {
            Ok(None)
        }
    }
}

/// What the equations of the list make of its variables.
pub fn resolver_of(alloc: Global, constraints: &[Con]) -> Result<Resolver, Memory>
    ensures { IfOk result (λ made. ResolvesList made constraints.now) }
{
    let mut bindings = Vec::new(alloc);
    let unifies = take_all(alloc, constraints, &mut bindings)?;
    let numbers = number_variables(alloc, constraints, bindings.as_slice())?;
    Ok(Resolver {
        bindings,
        numbers,
        unifies,
    })
}
