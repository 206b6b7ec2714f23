//! Depths that bindings lower.
ghost use Rattle.std.specs.Prelude.{◌≡◌, slice_get, OnOk, OnErr};
ghost use Rattle.scasp_bind.specs.Kept.{Continues};
ghost use Rattle.scasp_syntax.specs.View.{tm_of};
ghost use Rattle.scasp_unify.specs.Unification.{term_vars};
ghost use Rattle.scasp_constraint_store.specs.Bound.{depth_at, lowered_at, lowered_by, lowered_each};

use scasp_bind::{Bindings, Sort};
use scasp_list::Memory;
use scasp_search_terms::constraints::push_vars;
use scasp_syntax::{Term, VarList};
use scasp_unify::Binding;
use std::alloc::Global;

/// The depth of the variable; 0 where there is none of this number.
fn depth_at(variables: &Bindings, x: u64) -> u64
    ensures { result ≡ depth_at (slice_get variables.now.variables x) }
{
    if x < variables.len() {
        variables.depth(x)
    } else {
        0
    }
}

/// Lowers the depth of the variable to this one, where it is an existential.
fn lower_at(variables: &mut Bindings, depth: u64, x: u64) -> Result<(), Memory>
    ensures variables { OnOk result (variables.new.variables ≡ lowered_at depth x variables.old.variables) }
    ensures continues { Continues variables.old variables.new }
{
    if x >= variables.len() {
        return Ok(());
    }
    match variables.sort(x) {
        Sort::Existential => variables.lower(x, depth),
        Sort::Universal => Ok(()),
    }
}

/// Lowers the depths of the existentials among these to this one.
fn lower_each(variables: &mut Bindings, depth: u64, xs: &[u64]) -> Result<(), Memory>
    ensures variables { OnOk result (variables.new.variables ≡ lowered_each depth xs.now variables.old.variables) }
    ensures continues { Continues variables.old variables.new }
{
    for x in xs {
        lower_at(variables, depth, *x)?;
    }
    Ok(())
}

/// Lowers the depths of the existentials in the term to this one.
fn lower_term(
    alloc: Global,
    variables: &mut Bindings,
    depth: u64,
    term: &Term,
) -> Result<(), Memory>
    ensures variables { OnOk result (variables.new.variables ≡ lowered_each depth (term_vars (tm_of term.now)) variables.old.variables) }
    ensures continues { Continues variables.old variables.new }
{
    let mut xs = VarList::new(alloc);
    push_vars(term, &mut xs)?;
    lower_each(variables, depth, xs.as_slice())
}

/// Lowers depths by each of the bindings, in order.
fn lower_by(alloc: Global, variables: &mut Bindings, bindings: &[Binding]) -> Result<(), Memory>
    ensures variables { OnOk result (variables.new.variables ≡ lowered_by bindings.now variables.old.variables) }
    ensures continues { Continues variables.old variables.new }
{
    for binding in bindings {
        let depth = depth_at(variables, binding.x);
        lower_term(alloc, variables, depth, &binding.term)?;
    }
    Ok(())
}

/// The same; after want of memory nothing has changed.
pub(crate) fn lower(
    alloc: Global,
    variables: &mut Bindings,
    bindings: &[Binding],
) -> Result<(), Memory>
    ensures variables { OnOk result (variables.new.variables ≡ lowered_by bindings.now variables.old.variables) }
    ensures continues { Continues variables.old variables.new }
    ensures unchanged { OnErr result (variables.new ≡ variables.old) }
{
    let before = variables.mark();
    if lower_by(alloc, variables, bindings).is_err() {
        variables.undo(before);
        return Err(Memory);
    }
    Ok(())
}
