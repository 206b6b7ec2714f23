//! What opens where a fact is taken at a literal.
use crate::places::made::{constant, f, fact, p, two};
use scasp_lines_places::{Inside, Place, bound_to, context, inside_rule};
use scasp_list::Memory;
use scasp_num::Rat;
use scasp_syntax::{Con, Cons, Term, Terms};
use std::alloc::Global;
use std::test::Fail;

/// Inside the fact with these arguments, taken at p of the others, where parts are numbered from 9.
fn taken(alloc: Global, heads: Terms, parts: Terms) -> Result<Inside, Memory> {
    let clause = fact(alloc, heads);
    let here = Place::start(9);
    inside_rule(alloc, Some(&clause), &p(parts), 2, &here)
}

fn opened(alloc: Global, inside: &Inside) -> Result<Cons, Memory> {
    context(alloc, &[], &inside.here.opened)
}

/// Whether the constraint is the equation of two variables.
fn is_equation(constraint: Option<&Con>, x: u64, y: u64) -> bool {
    matches!(constraint, Some(Con::Eq(Term::Var(left), Term::Var(right))) if *left == x && *right == y)
}

/// f(f(Y, Y), Z).
fn nested(alloc: Global) -> Result<Term, Memory> {
    let inner = f(alloc, Term::Var(0), Term::Var(0))?;
    f(alloc, inner, Term::Var(1))
}

/// The fact of f(f(Y, Y), Z) at a variable.
fn named(alloc: Global) -> Result<Inside, Memory> {
    let heads = two(alloc, nested(alloc)?, constant(alloc, 5))?;
    let parts = two(alloc, Term::Var(0), constant(alloc, 5))?;
    taken(alloc, heads, parts)
}

/// f(f(Y, Y), Z) against a variable: two parts, then two more for the first, which are equal.
#[test]
fn names_against_a_variable(rt: HostRuntime) -> Result<(), Fail> {
    let inside = named(rt.alloc())?;
    let list = opened(rt.alloc(), &inside)?;
    assert!(rt; list.len() == 3 && is_equation(list.get(2), 11, 12));
    assert_eq!(rt; (inside.here.hidden, inside.next), (13, 2));
    Ok(())
}

fn met_twice(alloc: Global) -> Result<Inside, Memory> {
    let heads = two(alloc, Term::Var(0), Term::Var(0))?;
    let parts = two(alloc, Term::Var(4), Term::Var(3))?;
    taken(alloc, heads, parts)
}

/// A variable that is met twice equals what it was bound to.
#[test]
fn a_variable_met_twice(rt: HostRuntime) -> Result<(), Fail> {
    let inside = met_twice(rt.alloc())?;
    let list = opened(rt.alloc(), &inside)?;
    assert!(rt; list.len() == 1 && is_equation(list.get(0), 4, 3));
    assert_eq!(rt; inside.next, 3);
    Ok(())
}

fn numbered(alloc: Global) -> Result<Inside, Fail> {
    let one = Rat::new(1, 1)?;
    let heads = two(alloc, Term::Num(one), Term::Var(0))?;
    let parts = two(alloc, Term::Var(0), Term::Var(1))?;
    Ok(taken(alloc, heads, parts)?)
}

/// A number against a variable opens that it is a number, and that it is this one.
#[test]
fn a_number_against_a_variable(rt: HostRuntime) -> Result<(), Fail> {
    let inside = numbered(rt.alloc())?;
    assert_eq!(rt; opened(rt.alloc(), &inside)?.len(), 2);
    Ok(())
}

fn clashed(alloc: Global) -> Result<Inside, Memory> {
    let heads = two(alloc, constant(alloc, 5), Term::Var(0))?;
    let parts = two(alloc, constant(alloc, 6), Term::Var(3))?;
    taken(alloc, heads, parts)
}

/// A clash opens one constraint, and the argument behind it is still taken.
#[test]
fn behind_a_clash(rt: HostRuntime) -> Result<(), Fail> {
    let inside = clashed(rt.alloc())?;
    assert_eq!(rt; opened(rt.alloc(), &inside)?.len(), 1);
    let bound = bound_to(&inside.body.values, 0);
    assert!(rt; matches!(bound, Some(Term::Var(3))));
    Ok(())
}
