//! Deep terms: f of f of .. of a variable.
use scasp_lines_places::{Chain, Place, Replaced, inside_rule, under};
use scasp_list::Memory;
use scasp_name::NameId;
use scasp_search_rules::Pairs;
use scasp_search_terms::constraints::push_vars;
use scasp_search_terms::pairs::push_pairs;
use scasp_search_terms::reading::read;
use scasp_syntax::{Atom, Clause, Items, Term, Terms, VarList};
use scasp_unify::Binding;
use std::alloc::Global;
use std::test::Fail;

/// Walks that went down by calls would want more of the machine's stack than there is.
const DEEP: u64 = 100_000;

/// The term behind one f.
fn applied(alloc: Global, term: Term) -> Result<Term, Memory> {
    let mut args = Terms::new(alloc);
    args.push(term)?;
    Ok(Term::App(NameId::new(12), args))
}

/// The variable behind so many f.
fn nested(alloc: Global, x: u64) -> Result<Term, Memory> {
    let mut term = Term::Var(x);
    for _f in 0..DEEP {
        term = applied(alloc, term)?;
    }
    Ok(term)
}

/// How many f stand one below the other.
fn depth(term: &Term) -> u64 {
    let mut term = term;
    for depth in 0..DEEP {
        let Term::App(_, args) = term else {
            return depth;
        };
        let Some(argument) = args.get(0) else {
            return depth;
        };
        term = argument;
    }
    DEEP
}

/// The atom of this argument.
fn atom(alloc: Global, term: Term) -> Result<Atom, Memory> {
    let mut args = Terms::new(alloc);
    args.push(term)?;
    Ok(Atom {
        minus: false,
        name: NameId::new(12),
        args,
    })
}

#[test]
fn a_deep_term_is_made_by_bindings(rt: HostRuntime) -> Result<(), Fail> {
    let alloc = rt.alloc();
    let mut bindings = Vec::new(alloc);
    for x in 0..DEEP {
        let term = applied(alloc, Term::Var(x + 1))?;
        bindings.push(Binding { x, term })?;
    }
    let term = read(alloc, &Term::Var(0), &bindings)?;
    assert_eq!(rt; depth(&term), DEEP);
    Ok(())
}

#[test]
fn variables_of_deep_terms_are_replaced(rt: HostRuntime) -> Result<(), Fail> {
    let alloc = rt.alloc();
    let x = 0;
    let term = Term::Var(1);
    let none = Chain::new();
    let all = none.with(alloc, Binding { x, term })?;
    let made = under(alloc, &nested(alloc, x)?, &Replaced { all: &all })?;
    assert_eq!(rt; depth(&made), DEEP);
    Ok(())
}

#[test]
fn deep_terms_have_variables_and_pairs(rt: HostRuntime) -> Result<(), Fail> {
    let alloc = rt.alloc();
    let left = nested(alloc, 0)?;
    let mut vars = VarList::new(alloc);
    push_vars(&left, &mut vars)?;
    let mut pairs = Pairs::new(alloc);
    push_pairs(alloc, &left, &nested(alloc, 1)?, &mut pairs)?;
    assert_eq!(rt; (vars.len(), pairs.len()), (1, 1));
    Ok(())
}

#[test]
fn deep_heads_are_opened(rt: HostRuntime) -> Result<(), Fail> {
    let alloc = rt.alloc();
    let clause = Clause {
        head: Some(atom(alloc, nested(alloc, 0)?)?),
        body: Items::new(alloc),
        vars: 1,
    };
    let place = Place::start(1);
    let against = atom(alloc, Term::Var(0))?;
    let inside = inside_rule(alloc, Some(&clause), &against, 1, &place)?;
    assert_eq!(rt; inside.here.hidden, 1 + DEEP);
    let against = atom(alloc, nested(alloc, 1)?)?;
    let inside = inside_rule(alloc, Some(&clause), &against, 1, &place)?;
    assert_eq!(rt; inside.here.hidden, 1);
    Ok(())
}
