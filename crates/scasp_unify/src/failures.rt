//! Whether a list of constraints fails by its terms.
ghost use Rattle.std.specs.Prelude.{◌≡◌, IfOk, List, map};
ghost use Rattle.scasp_syntax.specs.Constraints.{has_shape};
ghost use Rattle.scasp_syntax.specs.View.{tm_of};
ghost use Rattle.scasp_syntax.specs.declared.con.Con.{Con as ThisCon};
ghost use Rattle.scasp_unify.specs.Numbers.{is_among_numbers, is_number_term, number_var};
ghost use Rattle.scasp_unify.specs.ResolvedLists.{ResolvesList};
ghost use Rattle.scasp_unify.specs.Solving.{part_of};
ghost use Rattle.scasp_unify.specs.TermFailures.{fails_by_terms, is_compound, is_refuted};

use crate::bindings::resolve;
use crate::parts::Part;
use crate::resolver::Resolver;
use crate::solving::resolved_sides;
use scasp_list::Memory;
use scasp_name::NameId;
use scasp_syntax::{Con, Term};
use std::alloc::Global;

/// Whether the list says of the variable, which is unbound, that it is a number.
fn is_number_variable(y: u64, resolver: &Resolver) -> bool
    ensures { (cs : List ThisCon) → ResolvesList resolver.now cs → result ≡ number_var cs y }
{
    resolver.numbers.as_slice().contains(&y)
}

/// Whether the term, which is resolved, is a number or a variable of which the list says so.
fn is_number_term(term: &Term, resolver: &Resolver) -> bool
    ensures { (cs : List ThisCon) → ResolvesList resolver.now cs → result ≡ is_number_term cs (tm_of term.now) }
{
    match term {
        Term::Var(y) => is_number_variable(*y, resolver),
        Term::Num(_) => true,
        Term::App(_, _) => false,
    }
}

/// Whether each of the parts, which are resolved, is between two numbers.
pub fn are_among_numbers(parts: &[Part], resolver: &Resolver) -> bool
    ensures { (cs : List ThisCon) → ResolvesList resolver.now cs → result ≡ is_among_numbers cs (map part_of parts.now) }
{
    for part in parts {
        if !is_number_variable(part.at, resolver) {
            return false;
        }
        if !is_number_term(&part.term, resolver) {
            return false;
        }
    }
    true
}

/// Whether the term is this name with so many arguments.
fn has_shape(term: &Term, name: NameId, arity: u64) -> bool
    ensures { result ≡ has_shape name arity (tm_of term.now) }
{
    match term {
        Term::Var(_) | Term::Num(_) => false,
        Term::App(other, args) => *other == name && args.len() as u64 == arity,
    }
}

fn is_compound(term: &Term) -> bool
    ensures { result ≡ is_compound (tm_of term.now) }
{
    match term {
        Term::Var(_) | Term::Num(_) => false,
        Term::App(_, _) => true,
    }
}

/// Whether the constraint fails by what its terms are, resolved.
fn is_refuted(alloc: Global, constraint: &Con, resolver: &Resolver) -> Result<bool, Memory>
    ensures { IfOk result (λ fails. (cs : List ThisCon) → ResolvesList resolver.now cs → fails ≡ is_refuted cs constraint.now) }
{
    let bindings = resolver.bindings.as_slice();
    match constraint {
        Con::Eq(_, _) | Con::Row(_) => Ok(false),
        Con::Neq(left, right) => match resolved_sides(alloc, left, right, bindings)? {
            None => Ok(false),
            Some(parts) => Ok(parts.is_empty()),
        },
        Con::NotShape(x, name, arity) => {
            let value = resolve(alloc, &Term::Var(*x), bindings)?;
            Ok(has_shape(&value, *name, *arity))
        }
        Con::Num(term) => {
            let value = resolve(alloc, term, bindings)?;
            Ok(is_compound(&value))
        }
        Con::NotNum(term) => {
            let value = resolve(alloc, term, bindings)?;
            Ok(is_number_term(&value, resolver))
        }
    }
}

/// Whether the list fails by its terms: its equations do not unify, or one of its other constraints but the rows is
/// refuted by what they make of its variables.
pub fn fails_by_terms(
    alloc: Global,
    constraints: &[Con],
    resolver: &Resolver,
) -> Result<bool, Memory>
    requires { ResolvesList resolver.now constraints.now }
    ensures { IfOk result (λ fails. fails ≡ fails_by_terms constraints.now) }
{
    if !resolver.unifies {
        return Ok(true);
    }
    for constraint in constraints {
        if is_refuted(alloc, constraint, resolver)? {
            return Ok(true);
        }
    }
    Ok(false)
}
