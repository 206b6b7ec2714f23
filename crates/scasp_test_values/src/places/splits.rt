//! The two sides of a split.
use crate::places::made::f;
use scasp_lines_places::{
    Bounds, Inside, Place, Sides, both_sides, context, in_scope, inside_check, is_universal,
    replaced_value,
};
use scasp_list::Memory;
use scasp_syntax::{Clause, Con, Items, Term};
use std::alloc::Global;
use std::test::Fail;

const BOUNDS: Bounds = Bounds { free: 0, top: 6 };

/// Inside a check of a denial with one variable, which variable 0 stands for.
fn checked(alloc: Global) -> Result<Inside, Memory> {
    let clause = Clause {
        head: None,
        body: Items::new(alloc),
        vars: 1,
    };
    inside_check(alloc, Some(&clause), 0, &Place::start(6))
}

/// The sides of the split by V0 \= f(V1, V2).
fn split(alloc: Global) -> Result<Sides, Memory> {
    let inside = checked(alloc)?;
    let constraint = Con::Neq(Term::Var(0), f(alloc, Term::Var(1), Term::Var(2))?);
    both_sides(alloc, BOUNDS, &constraint, &inside.here, inside.next)
}

/// On the side without the shape the variable is universal, and the parts are not in scope.
#[test]
fn the_first_side(rt: HostRuntime) -> Result<(), Fail> {
    let first = split(rt.alloc())?.first;
    assert_eq!(rt; context(rt.alloc(), &[], &first.opened)?.len(), 1);
    assert_eq!(rt; is_universal(rt.alloc(), 0, 6, &first, 0), Ok(true));
    assert!(rt; !in_scope(0, 6, &first, 1));
    Ok(())
}

fn value_on_second(alloc: Global) -> Result<Term, Memory> {
    let second = split(alloc)?.second;
    replaced_value(alloc, &second.replaced, 0)
}

/// On the side with the shape it is replaced.
#[test]
fn the_second_side(rt: HostRuntime) -> Result<(), Fail> {
    assert_eq!(rt; split(rt.alloc())?.next, 3);
    assert!(rt; matches!(value_on_second(rt.alloc())?, Term::App(_, _)));
    Ok(())
}

/// There the parts are universal.
#[test]
fn parts_are_universal(rt: HostRuntime) -> Result<(), Fail> {
    let second = split(rt.alloc())?.second;
    assert_eq!(rt; is_universal(rt.alloc(), 0, 6, &second, 0), Ok(false));
    assert_eq!(rt; is_universal(rt.alloc(), 0, 6, &second, 2), Ok(true));
    Ok(())
}

/// The split by V1 = V2 below the side with the shape.
fn split_again(alloc: Global) -> Result<Sides, Memory> {
    let second = split(alloc)?.second;
    let constraint = Con::Eq(Term::Var(1), Term::Var(2));
    both_sides(alloc, BOUNDS, &constraint, &second, 3)
}

/// Below a split by an equation of two universals the left one is replaced.
#[test]
fn an_equation_below_a_split(rt: HostRuntime) -> Result<(), Fail> {
    let sides = split_again(rt.alloc())?;
    assert_eq!(rt; is_universal(rt.alloc(), 0, 6, &sides.first, 1), Ok(false));
    assert_eq!(rt; is_universal(rt.alloc(), 0, 6, &sides.first, 2), Ok(true));
    assert_eq!(rt; is_universal(rt.alloc(), 0, 6, &sides.second, 1), Ok(true));
    Ok(())
}
