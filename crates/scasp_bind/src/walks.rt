//! Walks over terms under bindings, with a list of what is still to be seen.
ghost use Rattle.std.specs.Prelude.{◌≡◌, true, length, map, nat_eq, ◌++◌, IfOk, OnOk, option_copied, option_map};
ghost use Rattle.std.specs.HashMap.{get};
ghost use Rattle.scasp_syntax.specs.Tm.{items};
ghost use Rattle.scasp_syntax.specs.View.{tm_of};
ghost use Rattle.scasp_syntax.specs.WellFormed.{is_below};
ghost use Rattle.scasp_bind.specs.Resolving.{binding};
ghost use Rattle.scasp_bind.specs.Inside.Heads.{terms_of};
ghost use Rattle.scasp_bind.specs.Inside.Notes.{Adds, Approaches, Puts, noted_of};
ghost use Rattle.scasp_bind.specs.Inside.Soundness.{IsSoundNow, bound_to};

use crate::trailed::Trailed;
use scasp_list::Memory;
use scasp_syntax::{Term, Terms};
use std::alloc::Global;
use std::collections::HashMap;

/// What the term is bound to, where it is a bound variable.
pub(crate) fn bound<'a>(store: &'a Trailed, term: &Term) -> Option<&'a Term>
    requires { is_below (length store.now.variables) (tm_of term.now) ≡ true }
    ensures { option_map tm_of (option_copied result) ≡ bound_to (binding store.now.variables) (tm_of term.now) }
{
    match term {
        Term::Var(x) => store.get(*x).term.as_ref(),
        Term::Num(_) => None,
        Term::App(_, _) => None,
    }
}

/// What is noted of the term, where it is a variable.
pub(crate) fn noted<'a>(notes: &HashMap<u64, &'a Term>, term: &Term) -> Option<&'a Term>
    ensures { result ≡ noted_of (get nat_eq notes.now) (tm_of term.now) }
{
    match term {
        Term::Var(x) => notes.get(x).copied(),
        Term::Num(_) => None,
        Term::App(_, _) => None,
    }
}

/// The term itself, or what it leads to through bound variables, up to the first of which something is noted.
pub(crate) fn walk<'a>(
    store: &'a Trailed,
    notes: &HashMap<u64, &'a Term>,
    term: &'a Term,
) -> &'a Term
    requires { IsSoundNow store.now × (is_below (length store.now.variables) (tm_of term.now) ≡ true) }
    ensures { Approaches store.now (get nat_eq notes.now) (tm_of term.now) (tm_of result.now) }
{
    let mut found = term;
    while let Some(next) = bound(store, found) {
        if noted(notes, found).is_some() {
            return found;
        }
        found = next;
    }
    found
}

/// Notes this of each bound variable that the term leads through, up to the first of which something was noted: then so
/// it was of those behind it.
pub(crate) fn note_way<'a>(
    store: &'a Trailed,
    notes: &mut HashMap<u64, &'a Term>,
    term: &'a Term,
    end: &'a Term,
) -> Result<(), Memory>
    requires { IsSoundNow store.now × (is_below (length store.now.variables) (tm_of term.now) ≡ true) }
    ensures { OnOk result (Adds store.now (tm_of term.now) end.now (get nat_eq notes.old) (get nat_eq notes.new)) }
{
    let mut at = term;
    while let Some(next) = bound(store, at) {
        if note(notes, at, end)? {
            return Ok(());
        }
        at = next;
    }
    Ok(())
}

/// Notes this of the term, where it is a variable; whether something was noted before, or it is none.
fn note<'a>(notes: &mut HashMap<u64, &'a Term>, term: &Term, end: &'a Term) -> Result<bool, Memory>
    ensures { OnOk result (Puts (tm_of term.now) end.now (get nat_eq notes.old) (get nat_eq notes.new)) }
{
    match term {
        Term::Var(x) => Ok(notes.insert(*x, end)?.is_some()),
        Term::Num(_) => Ok(true),
        Term::App(_, _) => Ok(true),
    }
}

/// Puts all the terms on the list.
pub(crate) fn push_all<'a>(unseen: &mut Vec<&'a Term>, terms: &'a Terms) -> Result<(), Memory>
    ensures { OnOk result (terms_of unseen.new.items ≡ terms_of unseen.old.items ++ items terms.now) }
{
    for term in terms.as_slice() {
        unseen.push(term)?;
    }
    Ok(())
}

/// Whether each variable of the term is one of the first `count`.
pub(crate) fn is_known(alloc: Global, count: u64, term: &Term) -> Result<bool, Memory>
    ensures { IfOk result (λ answer. answer ≡ is_below count (tm_of term.now)) }
{
    let mut unseen: Vec<&Term> = Vec::new(alloc);
    unseen.push(term)?;
    while let Some(next) = unseen.pop() {
        match next {
            Term::Var(x) => {
                if *x >= count {
                    return Ok(false);
                }
            }
            Term::Num(_) => {}
            Term::App(_, args) => push_all(&mut unseen, args)?,
        }
    }
    Ok(true)
}
