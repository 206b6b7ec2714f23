//! Terms, atoms and clauses for the tests.
use scasp_list::Memory;
use scasp_name::NameId;
use scasp_syntax::{Atom, Clause, Item, Items, Lit, Term, Terms};
use std::alloc::Global;

/// The name with no argument.
pub fn constant(alloc: Global, name: u64) -> Term {
    Term::App(NameId::new(name), Terms::new(alloc))
}

/// The two terms.
pub fn two(alloc: Global, first: Term, second: Term) -> Result<Terms, Memory> {
    let mut terms = Terms::new(alloc);
    terms.push(first)?;
    terms.push(second)?;
    Ok(terms)
}

/// f of two terms.
pub fn f(alloc: Global, first: Term, second: Term) -> Result<Term, Memory> {
    Ok(Term::App(NameId::new(7), two(alloc, first, second)?))
}

/// p of the terms.
pub fn p(args: Terms) -> Atom {
    Atom {
        minus: false,
        name: NameId::new(3),
        args,
    }
}

/// A fact with two variables.
pub fn fact(alloc: Global, args: Terms) -> Clause {
    Clause {
        head: Some(p(args)),
        body: Items::new(alloc),
        vars: 2,
    }
}

/// p(Vx, Vy).
pub fn p_of(alloc: Global, x: u64, y: u64) -> Result<Atom, Memory> {
    Ok(p(two(alloc, Term::Var(x), Term::Var(y))?))
}

/// p(Y, X), X \= Y.
fn body(alloc: Global) -> Result<Items, Memory> {
    let mut body = Items::new(alloc);
    body.push(Item::Call(Lit {
        positive: true,
        atom: p_of(alloc, 1, 0)?,
    }))?;
    body.push(Item::Differ(Term::Var(0), Term::Var(1)))?;
    Ok(body)
}

/// The rule p(X, Y) :- p(Y, X), X \= Y.
pub fn rule(alloc: Global) -> Result<Clause, Memory> {
    let body = body(alloc)?;
    Ok(Clause {
        head: Some(p_of(alloc, 0, 1)?),
        body,
        vars: 2,
    })
}
