//! Terms made of others.
ghost use Rattle.std.specs.Prelude.{◌≡◌, map, IfOk};
ghost use Rattle.std.specs.Option.{option_map};
ghost use Rattle.scasp_reader_terms.specs.Terms.{list_of};
ghost use Rattle.scasp_syntax.specs.View.{tm_of};
ghost use Rattle.scasp_answers_terms.specs.Tokens.Terms as spec;

use scasp_list::Memory;
use scasp_name::{NIL, NameId, PAIR};
use scasp_reader_terms::arguments_of;
use scasp_syntax::{Term, Terms};
use std::alloc::Global;

/// Whether the term goes on a list: it is never written behind a bar.
pub fn is_list(term: &Term) -> bool
    ensures { result ≡ spec.is_list (tm_of term.now) }
{
    match term {
        Term::Var(_) => false,
        Term::Num(_) => false,
        Term::App(name, terms) => is_list_call(*name, terms),
    }
}

fn is_list_call(name: NameId, terms: &Terms) -> bool
    ensures { result ≡ spec.is_list_call name terms.now }
{
    match terms.len() {
        0 => name == NIL,
        2 => name == PAIR,
        _ => false,
    }
}

/// The name with these arguments, where it is written by its name.
pub fn called(alloc: Global, name: NameId, terms: Vec<Term>) -> Result<Option<Term>, Memory>
    ensures { IfOk result (λ t. option_map tm_of t ≡ spec.called name (map tm_of terms.items)) }
{
    let arguments = arguments_of(alloc, terms)?;
    if is_list_call(name, &arguments) {
        Ok(None)
    } else {
        Ok(Some(Term::App(name, arguments)))
    }
}

/// The list of the terms, with a rest behind them.
pub fn list_of(alloc: Global, mut terms: Vec<Term>, rest: Term) -> Result<Term, Memory>
    ensures { IfOk result (λ t. tm_of t ≡ list_of (map tm_of terms.items) (tm_of rest)) }
{
    let mut list = rest;
    while let Some(term) = terms.pop() {
        let mut parts = Terms::new(alloc);
        parts.push(term)?;
        parts.push(list)?;
        list = Term::App(PAIR, parts);
    }
    Ok(list)
}
