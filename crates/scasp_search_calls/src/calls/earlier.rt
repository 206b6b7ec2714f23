//! Earlier literals: one that is seen again, and those of the other sign.
ghost use Rattle.std.specs.Prelude.{◌≡◌, IfOk, filter, map};
ghost use Rattle.scasp_search_state.specs.Words.{first_number};
ghost use Rattle.scasp_search_rules.specs.Successors.Calls.{can_be_seen, differing, is_firm, is_free, is_in_scope, is_opposite, lit_under, open_cases, opposites};
ghost use Rattle.scasp_search_rules.specs.Successors.Reading.{among};
ghost use Rattle.scasp_syntax.specs.Tm.{app, cons, items, nil};
ghost use Rattle.scasp_syntax.specs.View.{tm_of};
ghost use Rattle.scasp_unify.specs.SimpleForm.{list_term};

use crate::calls::repeated::is_same;
use scasp_list::Memory;
use scasp_name::{NIL, PAIR};
use scasp_search_rules::{Cover, Literal, State};
use scasp_search_terms::constraints::push_all_vars;
use scasp_search_terms::reading::read_terms;
use scasp_search_terms::variables::has_universal;
use scasp_syntax::{Con, Cons, Lit, Term, Terms, VarList, copy};
use std::alloc::Global;

// ---- a literal that is seen

/// Whether the case of this number is open.
fn is_case_open(covers: &[Cover], case: u64) -> bool
    ensures { result ≡ among case (map (λ c. c.case) covers.now) }
{
    for cover in covers {
        if cover.case == case {
            return true;
        }
    }
    false
}

/// Whether each case around the literal is open, or is of a plain cover.
fn is_in_scope(state: &State, literal: &Literal) -> bool
    ensures { result ≡ is_in_scope state.now literal.now }
{
    for case in literal.cases.as_slice() {
        if !is_case_open(state.covers.as_slice(), *case) {
            return false;
        }
    }
    true
}

/// Whether no positive loop leads out of the literal.
fn is_firm(literal: &Literal) -> bool
    ensures { result ≡ is_firm literal.now }
{
    !(literal.lit.positive && literal.loops)
}

/// Whether the call sees this literal again, where its arguments read as `args`.
fn can_be_seen(
    alloc: Global,
    state: &State,
    lit: &Lit,
    args: &Terms,
    other: &Literal,
) -> Result<bool, Memory>
    requires { args.now ≡ (lit_under state.now lit.now).atom.args }
    ensures { IfOk result (λ answer. answer ≡ can_be_seen state.now lit.now other.now) }
{
    if other.is_done && is_firm(other) && is_in_scope(state, other) {
        is_same(alloc, state, lit, args, other)
    } else {
        Ok(false)
    }
}

/// The number of the earliest literal that the call sees again.
pub fn seen(alloc: Global, state: &State, lit: &Lit) -> Result<Option<u64>, Memory>
    ensures { IfOk result (λ found. found ≡ first_number (filter (can_be_seen state.now lit.now) state.now.literals)) }
{
    let args = read_terms(alloc, &lit.atom.args, state.bound.as_slice())?;
    for literal in state.literals.as_slice() {
        if can_be_seen(alloc, state, lit, &args, literal)? {
            return Ok(Some(literal.number));
        }
    }
    Ok(None)
}

// ---- literals of the other sign

/// Whether the literal has no universal variable, as it reads now.
fn is_free(alloc: Global, state: &State, lit: &Lit) -> Result<bool, Memory>
    ensures { IfOk result (λ answer. answer ≡ is_free state.now lit.now) }
{
    let args = read_terms(alloc, &lit.atom.args, state.bound.as_slice())?;
    let mut vars = VarList::new(alloc);
    push_all_vars(&args, &mut vars)?;
    Ok(!has_universal(state, vars.as_slice()))
}

fn is_opposite(alloc: Global, state: &State, lit: &Lit, other: &Literal) -> Result<bool, Memory>
    ensures { IfOk result (λ answer. answer ≡ is_opposite state.now lit.now other.now) }
{
    if other.lit.positive == lit.positive
        || other.lit.atom.pred() != lit.atom.pred()
        || other.is_general
    {
        return Ok(false);
    }
    is_free(alloc, state, &other.lit)
}

/// The list of a term and the terms of a list.
fn list_of(alloc: Global, first: Term, rest: Term) -> Result<Term, Memory>
    ensures { IfOk result (λ made. tm_of made ≡ app 1 (cons (tm_of first) (cons (tm_of rest) nil))) }
{
    let mut both = Terms::new(alloc);
    both.push(first)?;
    both.push(rest)?;
    Ok(Term::App(PAIR, both))
}

/// The terms as one list.
fn list_term(alloc: Global, terms: &Terms) -> Result<Term, Memory>
    ensures { IfOk result (λ made. tm_of made ≡ list_term (items terms.now)) }
{
    let all = terms.as_slice();
    let mut place = all.len();
    let mut made = Term::App(NIL, Terms::new(alloc));
    while place > 0 {
        place -= 1;
        made = list_of(alloc, copy(alloc, &all[place])?, made)?;
    }
    Ok(made)
}

/// That the arguments of the two literals are different.
fn differing(alloc: Global, lit: &Lit, other: &Literal) -> Result<Con, Memory>
    ensures { IfOk result (λ made. made ≡ differing lit.now other.now) }
{
    Ok(Con::Neq(
        list_term(alloc, &lit.atom.args)?,
        list_term(alloc, &other.lit.atom.args)?,
    ))
}

/// That the arguments differ from those of each literal of these that is opposite.
fn all_differing(
    alloc: Global,
    state: &State,
    lit: &Lit,
    literals: &[Literal],
) -> Result<Cons, Memory>
    ensures { IfOk result (λ made. made ≡ map (differing lit.now) (filter (is_opposite state.now lit.now) literals.now)) }
{
    let mut made = Cons::new(alloc);
    for literal in literals {
        if is_opposite(alloc, state, lit, literal)? {
            made.push(differing(alloc, lit, literal)?)?;
        }
    }
    Ok(made)
}

/// That the arguments differ from those of each earlier literal of the other sign.
pub fn opposite_constraints(alloc: Global, state: &State, lit: &Lit) -> Result<Cons, Memory>
    ensures { IfOk result (λ made. made ≡ map (differing lit.now) (opposites state.now lit.now)) }
{
    if is_free(alloc, state, lit)? {
        all_differing(alloc, state, lit, state.literals.as_slice())
    } else {
        Ok(Cons::new(alloc))
    }
}
