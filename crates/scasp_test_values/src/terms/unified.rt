//! Lists of constraints as far as their terms go: what their equations make of variables, and which fail.
use crate::rows::row_of;
use crate::terms::terms::nested;
use scasp_name::{Memory, NameId};
use scasp_num::{Coeff, Op, Rat, Row};
use scasp_syntax::{Con, Term, Terms};
use scasp_unify::{Resolver, fails_by_terms, resolved_row, resolved_sides, resolver_of};
use std::alloc::Global;
use std::test::Fail;

/// The name under these terms.
fn application(alloc: Global, name: u64, arguments: [Option<Term>; 2]) -> Result<Term, Memory> {
    let mut args = Terms::new(alloc);
    for argument in arguments {
        if let Some(term) = argument {
            args.push(term)?;
        }
    }
    Ok(Term::App(NameId::new(name), args))
}

fn constant(alloc: Global) -> Result<Term, Memory> {
    application(alloc, 2, [None, None])
}

/// Whether the constraints unify, and whether they fail.
fn answer(alloc: Global, constraints: &[Con]) -> Result<(bool, bool), Memory> {
    let resolver = resolver_of(alloc, constraints)?;
    let unifies = resolver.unifies;
    Ok((unifies, fails_by_terms(alloc, constraints, &resolver)?))
}

/// The answer of the equation and the other constraint.
fn tried(alloc: Global, left: Term, right: Term, other: Con) -> Result<(bool, bool), Memory> {
    let mut constraints = Vec::new(alloc);
    constraints.push(Con::Eq(left, right))?;
    constraints.push(other)?;
    answer(alloc, constraints.as_slice())
}

/// f(V0, V1) = f(V1, a), V0 \= a
fn below_a_name(alloc: Global) -> Result<(bool, bool), Memory> {
    let left = application(alloc, 3, [Some(Term::Var(0)), Some(Term::Var(1))])?;
    let right = application(alloc, 3, [Some(Term::Var(1)), Some(constant(alloc)?)])?;
    let same = Con::Neq(Term::Var(0), constant(alloc)?);
    tried(alloc, left, right, same)
}

/// V0 = f(V0)
fn inside(alloc: Global) -> Result<(bool, bool), Memory> {
    let inside = application(alloc, 3, [Some(Term::Var(0)), None])?;
    tried(alloc, Term::Var(0), inside, Con::Num(Term::Var(1)))
}

/// a = V0, not num(V0)
fn of_a_name(alloc: Global) -> Result<(bool, bool), Memory> {
    let name = constant(alloc)?;
    tried(alloc, name, Term::Var(0), Con::NotNum(Term::Var(0)))
}

/// V0 = V1, where V1 is no constant
fn of_variables(alloc: Global) -> Result<(bool, bool), Memory> {
    let other = Con::NotShape(1, NameId::new(2), 0);
    tried(alloc, Term::Var(0), Term::Var(1), other)
}

#[test]
fn lists_unify_and_fail(rt: HostRuntime) -> Result<(), Fail> {
    assert!(rt; below_a_name(rt.alloc())? == (true, true));
    assert!(rt; inside(rt.alloc())? == (false, true));
    assert!(rt; of_a_name(rt.alloc())? == (true, false));
    assert!(rt; of_variables(rt.alloc())? == (true, false));
    Ok(())
}

/// 2 for V0.
fn two(alloc: Global) -> Result<Resolver, Fail> {
    let mut constraints = Vec::new(alloc);
    constraints.push(Con::Eq(Term::Var(0), Term::Num(Rat::new(2, 1)?)))?;
    Ok(resolver_of(alloc, constraints.as_slice())?)
}

/// V0 + V1 =< 0
fn row(alloc: Global) -> Result<Row, Fail> {
    row_of(alloc, &[(0, 1), (1, 1)], 0, Op::Le)
}

fn row_with_two(alloc: Global) -> Result<Row, Fail> {
    let resolver = two(alloc)?;
    let row = row(alloc)?;
    Ok(resolved_row(alloc, &row, resolver.bindings.as_slice())?)
}

/// V1 + 2 =< 0
#[test]
fn rows_are_resolved(rt: HostRuntime) -> Result<(), Fail> {
    let resolved = row_with_two(rt.alloc())?;
    let coeffs = resolved.coeffs().as_slice();
    assert_eq!(rt; resolved.constant(), 2);
    assert_eq!(rt; coeffs, [Coeff { x: 1, c: 1 }].as_slice());
    Ok(())
}

/// In how many parts V0 and V1 differ.
fn parts(alloc: Global) -> Result<Option<usize>, Fail> {
    let resolver = two(alloc)?;
    let bindings = resolver.bindings.as_slice();
    let sides = resolved_sides(alloc, &Term::Var(0), &Term::Var(1), bindings)?;
    Ok(sides.map(|parts| parts.len()))
}

#[test]
fn sides_are_resolved(rt: HostRuntime) -> Result<(), Fail> {
    assert_eq!(rt; parts(rt.alloc())?, Some(1));
    Ok(())
}

/// In how many parts the two terms differ under 100,000 names, where V0 is 2.
fn deep_parts(alloc: Global, left: Term, right: Term) -> Result<Option<usize>, Fail> {
    let resolver = two(alloc)?;
    let left = nested(alloc, left)?;
    let right = nested(alloc, right)?;
    let sides = resolved_sides(alloc, &left, &right, resolver.bindings.as_slice())?;
    Ok(sides.map(|parts| parts.len()))
}

#[test]
fn deep_sides_are_taken_apart(rt: HostRuntime) -> Result<(), Fail> {
    let alloc = rt.alloc();
    assert_eq!(rt; deep_parts(alloc, Term::Var(0), Term::Var(1))?, Some(1));
    assert_eq!(rt;
        deep_parts(alloc, Term::Var(0), Term::Num(Rat::new(2, 1)?))?,
        Some(0)
    );
    assert_eq!(rt; deep_parts(alloc, Term::Var(0), constant(alloc)?)?, None);
    Ok(())
}

/// V0 is V1 under 100,000 names, and V1 is the last variable under as many.
fn deep_equations(alloc: Global, last: u64) -> Result<(bool, bool), Memory> {
    let mut constraints = Vec::new(alloc);
    constraints.push(Con::Eq(Term::Var(0), nested(alloc, Term::Var(1))?))?;
    constraints.push(Con::Eq(Term::Var(1), nested(alloc, Term::Var(last))?))?;
    answer(alloc, constraints.as_slice())
}

#[test]
fn deep_equations_unify(rt: HostRuntime) -> Result<(), Fail> {
    assert!(rt; deep_equations(rt.alloc(), 2)? == (true, false));
    assert!(rt; deep_equations(rt.alloc(), 0)? == (false, true));
    Ok(())
}
