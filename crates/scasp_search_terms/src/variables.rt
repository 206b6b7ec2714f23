//! The variables of a state: kinds, depths, and what they are bound to.
ghost use Rattle.std.specs.Prelude.{◌≡◌, ℕ, ◌++◌, ◌∷◌, [], filter, length, replicate, slice_get, slice_set, IfOk, OnOk, Some};
ghost use Rattle.std.specs.List.{list_any};
ghost use Rattle.scasp_search_rules.specs.Successors.Variables.{depth_of, has_universal, is_kind_existential, is_kind_matched, is_kind_universal, is_universal, lower, lowered, made_at, universals_of, with_new};

use crate::constraints::con_vars;
use scasp_list::Memory;
use scasp_search_rules::{Kind, Made, State, Variables};
use scasp_syntax::{Con, VarList};
use std::alloc::Global;

/// The kind and the depth of a variable.
pub fn made_at(state: &State, x: u64) -> Made
    ensures { result ≡ made_at state.now x }
{
    match state.made.get(x as usize) {
        Some(made) => *made,
        None => Made {
            kind: Kind::Existential,
            depth: 0,
        },
    }
}

/// How many covers the value of a variable may depend on.
pub fn depth_of(state: &State, x: u64) -> u64
    ensures { result ≡ depth_of state.now x }
{
    made_at(state, x).depth
}

fn is_kind_universal(kind: Kind) -> bool
    ensures { result ≡ is_kind_universal kind }
{
    match kind {
        Kind::Universal => true,
        Kind::Existential | Kind::Matched => false,
    }
}

fn is_kind_existential(kind: Kind) -> bool
    ensures { result ≡ is_kind_existential kind }
{
    match kind {
        Kind::Existential => true,
        Kind::Universal | Kind::Matched => false,
    }
}

/// Whether the variable is universal.
pub fn is_universal(state: &State, x: u64) -> bool
    ensures { result ≡ is_universal state.now x }
{
    is_kind_universal(made_at(state, x).kind)
}

/// Those of the variables that are universal, in order.
pub fn universal_among(alloc: Global, state: &State, xs: &[u64]) -> Result<VarList, Memory>
    ensures { IfOk result (λ found. found ≡ filter (is_universal state.now) xs.now) }
{
    let mut found = VarList::new(alloc);
    for x in xs {
        if is_universal(state, *x) {
            found.push(*x)?;
        }
    }
    Ok(found)
}

/// The universal variables of a constraint, as it reads now.
pub fn universals_of(alloc: Global, state: &State, constraint: &Con) -> Result<VarList, Memory>
    ensures { IfOk result (λ found. found ≡ universals_of state.now constraint.now) }
{
    let all = con_vars(alloc, constraint, state.bound.as_slice())?;
    universal_among(alloc, state, all.as_slice())
}

/// Whether one of the variables is universal.
pub fn has_universal(state: &State, xs: &[u64]) -> bool
    ensures { result ≡ has_universal state.now xs.now }
{
    for x in xs {
        if is_universal(state, *x) {
            return true;
        }
    }
    false
}

// ---- new variables

fn push_new(made: Variables, kind: Kind, depth: u64, count: u64) -> Result<Variables, Memory>
    ensures { IfOk result (λ more. more ≡ made ++ replicate count (record { kind = kind; depth = depth })) }
{
    let mut made = made;
    for _ in 0..count {
        made.push(Made { kind, depth })?;
    }
    Ok(made)
}

/// The state with so many new variables.
pub fn with_new(state: State, kind: Kind, depth: u64, count: u64) -> Result<State, Memory>
    ensures { IfOk result (λ more. more ≡ with_new state kind depth count) }
{
    let mut state = state;
    state.made = push_new(state.made, kind, depth, count)?;
    Ok(state)
}

// ---- bindings

fn lower(depth: u64, made: Made) -> Made
    ensures { result ≡ lower depth (Some made) }
{
    if is_kind_existential(made.kind) {
        Made {
            kind: made.kind,
            depth: made.depth.min(depth),
        }
    } else {
        made
    }
}

fn lower_at(depth: u64, x: u64, made: &mut Vec<Made>)
    ensures { made.new.items ≡ slice_set made.old.items x (lower depth (slice_get made.old.items x)) }
{
    let place = x as usize;
    if place < made.len() {
        made[place] = lower(depth, made[place]);
    }
}

/// The existential variables among these get at most this depth.
pub fn lower_all(depth: u64, xs: &[u64], made: Variables) -> Variables
    ensures { result ≡ lowered depth xs.now made }
{
    let mut made = made.into_vec();
    for x in xs {
        lower_at(depth, *x, &mut made);
    }
    Variables::from(made)
}
