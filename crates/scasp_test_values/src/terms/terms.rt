//! Terms: each call that takes memory, once with ample memory.
ghost use Rattle.std.specs.Prelude.{◌≡◌, ◌+◌, ◌^◌, ◌<◌, ℕ, IfOk};
ghost use Rattle.scasp_syntax.specs.Tm.{app, cons, nil};
ghost use Rattle.scasp_syntax.specs.View.{tm_of};
ghost use Rattle.scasp_syntax.specs.WellFormed.{is_below};

use scasp_name::{Memory, NameId};
use scasp_num::Rat;
use scasp_syntax::{
    Atom, DeepCopy, Lit, Term, Terms, are_ground, copy, instance_atom, is_ground, rename, same,
    same_atom, same_lit, size,
};
use std::alloc::Global;
use std::process::Abort;
use std::test::Fail;

fn application(alloc: Global, name: u64, arg: Term) -> Result<Term, Memory>
    ensures { IfOk result (λ term. tm_of term ≡ app name (cons (tm_of arg) nil)) }
{
    let mut args = Terms::new(alloc);
    args.push(arg)?;
    Ok(Term::App(NameId::new(name), args))
}

/// The term with this variable.
fn of_variable(alloc: Global, x: u64) -> Result<Term, Memory>
    ensures { IfOk result (λ term. tm_of term ≡ app 2 (cons (tm_of (Term.Var x)) nil)) }
{
    application(alloc, 2, Term::Var(x))
}

fn is_copied(alloc: Global, x: u64) -> Result<bool, Memory> {
    let term = of_variable(alloc, x)?;
    same(alloc, &copy(alloc, &term)?, &term)
}

fn are_same(alloc: Global, x: u64, y: u64) -> Result<bool, Memory> {
    let term = of_variable(alloc, x)?;
    same(alloc, &term, &of_variable(alloc, y)?)
}

/// Whether the term with one variable, raised, is that with the other.
fn is_raised_to(alloc: Global, x: u64, by: u64) -> Result<bool, Memory>
    requires { x + by + 1 < 2 ^ 64 }
{
    let term = of_variable(alloc, x)?;
    let raised = rename(alloc, &term, by)?;
    same(alloc, &raised, &of_variable(alloc, x + by)?)
}

fn test_term(rt: &impl Abort, alloc: Global, x: u64, by: u64) -> Result<(), Memory>
    requires { x + by + 1 < 2 ^ 64 }
{
    assert!(rt; is_copied(alloc, x)?);
    assert_eq!(rt; size(alloc, &of_variable(alloc, x)?)?, 2);
    assert!(rt; !are_same(alloc, x, x + 1)?);
    assert!(rt; is_raised_to(alloc, x, by)?);
    Ok(())
}

#[test]
fn terms_are_copied_renamed_counted_and_compared(rt: HostRuntime) -> Result<(), Fail> {
    test_term(&rt, rt.alloc(), 0, 3)?;
    test_term(&rt, rt.alloc(), 7, 0)?;
    test_term(&rt, rt.alloc(), 0, u64::MAX - 1)?;
    Ok(())
}

/// The term under 100,000 names.
pub fn nested(alloc: Global, inner: Term) -> Result<Term, Memory>
    ensures { (n : ℕ) → IfOk result (λ term. is_below n (tm_of term) ≡ is_below n (tm_of inner)) }
{
    let mut term = inner;
    'levels: for _level in 0..100_000 {
        term = application(alloc, 2, term)?;
    }
    Ok(term)
}

#[test]
fn deep_terms_are_compared(rt: HostRuntime) -> Result<(), Fail> {
    let alloc = rt.alloc();
    let open = nested(alloc, Term::Var(0))?;
    assert!(rt; same(alloc, &open, &open)?);
    assert!(rt; !same(alloc, &open, &nested(alloc, Term::Var(1))?)?);
    Ok(())
}

#[test]
fn deep_terms_are_copied(rt: HostRuntime) -> Result<(), Fail> {
    let alloc = rt.alloc();
    let open = nested(alloc, Term::Var(0))?;
    assert!(rt; same(alloc, &copy(alloc, &open)?, &open)?);
    Ok(())
}

/// Whether V0 under 100,000 names, raised by 3, is V3 under as many.
fn is_raised_by_three(alloc: Global) -> Result<bool, Memory> {
    let term = nested(alloc, Term::Var(0))?;
    let raised = rename(alloc, &term, 3)?;
    same(alloc, &raised, &nested(alloc, Term::Var(3))?)
}

#[test]
fn deep_terms_are_raised(rt: HostRuntime) -> Result<(), Fail> {
    assert!(rt; is_raised_by_three(rt.alloc())?);
    Ok(())
}

#[test]
fn deep_terms_are_open(rt: HostRuntime) -> Result<(), Fail> {
    let open = nested(rt.alloc(), Term::Var(0))?;
    assert!(rt; !is_ground(rt.alloc(), &open)?);
    Ok(())
}

#[test]
fn deep_terms_are_counted(rt: HostRuntime) -> Result<(), Fail> {
    let alloc = rt.alloc();
    let closed = nested(alloc, Term::Num(Rat::new(1, 2)?))?;
    assert!(rt; is_ground(alloc, &closed)?);
    assert_eq!(rt; size(alloc, &closed)?, 100_001);
    Ok(())
}

/// The literal `-p(V0)`.
fn literal(alloc: Global, positive: bool) -> Result<Lit, Memory> {
    let mut args = Terms::new(alloc);
    args.push(Term::Var(0))?;
    let name = NameId::new(2);
    Ok(Lit {
        positive,
        atom: Atom {
            minus: true,
            name,
            args,
        },
    })
}

#[test]
fn literals_are_copied_and_compared(rt: HostRuntime) -> Result<(), Fail> {
    let alloc = rt.alloc();
    let positive = literal(alloc, true)?;
    assert!(rt; same_lit(alloc, &positive, &positive.copy(alloc)?)?);
    assert!(rt; !same_lit(alloc, &positive, &literal(alloc, false)?)?);
    Ok(())
}

/// The atom `-p(V0)`.
fn open(alloc: Global) -> Result<Atom, Memory> {
    Ok(literal(alloc, true)?.atom)
}

/// The atom `-p(7/2)`.
fn closed(alloc: Global) -> Result<Atom, Fail> {
    let mut values = Terms::new(alloc);
    values.push(Term::Num(Rat::new(7, 2)?))?;
    Ok(instance_atom(alloc, &open(alloc)?, &values)?)
}

#[test]
fn atoms_are_instantiated(rt: HostRuntime) -> Result<(), Fail> {
    let alloc = rt.alloc();
    let closed = closed(alloc)?;
    assert!(rt; are_ground(alloc, &closed.args)?);
    assert!(rt; !same_atom(alloc, &open(alloc)?, &closed)?);
    Ok(())
}

#[test]
fn atoms_stay_without_values(rt: HostRuntime) -> Result<(), Fail> {
    let alloc = rt.alloc();
    let open = open(alloc)?;
    assert!(rt; !are_ground(alloc, &open.args)?);
    let unchanged = instance_atom(alloc, &open, &Terms::new(alloc))?;
    assert!(rt; same_atom(alloc, &open, &unchanged)?);
    Ok(())
}
