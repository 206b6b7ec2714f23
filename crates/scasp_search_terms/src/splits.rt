//! How a constraint parts the case of a cover.
ghost use Rattle.std.specs.Prelude.{◌≡◌, filter, IfOk};
ghost use Rattle.scasp_search_rules.specs.Successors.Splits.{equation_parting, is_bound_in, parting, replacement};

use crate::constraints::push_all_vars;
use scasp_list::Memory;
use scasp_name::NameId;
use scasp_search_rules::Parting;
use scasp_syntax::{Con, DeepCopy, Term, Terms, VarList, copy};
use scasp_unify::Binding;
use std::alloc::Global;

/// A constraint and its other side, without new parts.
pub fn parting(alloc: Global, constraint: &Con, other: Con) -> Result<Parting, Memory>
    ensures { IfOk result (λ made. made ≡ parting constraint.now other) }
{
    Ok(Parting {
        here: constraint.copy(alloc)?,
        line: constraint.copy(alloc)?,
        there: other,
        parts_here: VarList::new(alloc),
        parts_there: VarList::new(alloc),
    })
}

/// A variable that has this name with these parts, or has it not.
pub fn shape_parting(
    alloc: Global,
    x: u64,
    name: NameId,
    parts: &Terms,
    constraint: &Con,
) -> Result<Parting, Memory>
    requires { constraint.now ≡ Con.Eq (Term.Var x) (Term.App name parts.now) }
    ensures { IfOk result (λ made. made ≡ equation_parting (Term.Var x) (Term.App name parts.now)) }
{
    let mut vars = VarList::new(alloc);
    push_all_vars(parts, &mut vars)?;
    Ok(Parting {
        here: constraint.copy(alloc)?,
        line: constraint.copy(alloc)?,
        there: Con::NotShape(x, name, parts.len() as u64),
        parts_here: vars,
        parts_there: VarList::new(alloc),
    })
}

/// The replacement that a constraint is, where it is an equation of a variable.
pub fn replacement(alloc: Global, constraint: &Con) -> Result<Option<Binding>, Memory>
    ensures { IfOk result (λ made. made ≡ replacement constraint.now) }
{
    match constraint {
        Con::Eq(Term::Var(x), term) => Ok(Some(Binding {
            x: *x,
            term: copy(alloc, term)?,
        })),
        Con::Eq(Term::Num(_) | Term::App(_, _), _)
        | Con::Neq(_, _)
        | Con::NotShape(_, _, _)
        | Con::Num(_)
        | Con::NotNum(_)
        | Con::Row(_) => Ok(None),
    }
}

fn is_bound(bindings: &[Binding], x: u64) -> bool
    ensures { result ≡ is_bound_in bindings.now x }
{
    for binding in bindings {
        if binding.x == x {
            return true;
        }
    }
    false
}

/// Those of the variables that are bound, in order.
pub fn bound_among(alloc: Global, bindings: &[Binding], xs: &[u64]) -> Result<VarList, Memory>
    ensures { IfOk result (λ found. found ≡ filter (is_bound_in bindings.now) xs.now) }
{
    let mut found = VarList::new(alloc);
    for x in xs {
        if is_bound(bindings, *x) {
            found.push(*x)?;
        }
    }
    Ok(found)
}
