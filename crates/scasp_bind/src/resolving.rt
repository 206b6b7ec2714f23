//! Terms as bindings resolve them: first their heads are written down, then the term is built from the last one on.
ghost use Rattle.std.specs.Prelude.{◌≡◌, true, ◌++◌, ◌∷◌, [], length, drop, nat_eq, take, reverse, IfOk, OnOk};
ghost use Rattle.std.specs.HashMap.{get};
ghost use Rattle.scasp_syntax.specs.Tm.{args_of, items, listed, app};
ghost use Rattle.scasp_syntax.specs.Values.{under};
ghost use Rattle.scasp_syntax.specs.View.{tm_of};
ghost use Rattle.scasp_syntax.specs.WellFormed.{is_below};
ghost use Rattle.scasp_bind.specs.Inside.Heads.{assembled, head_of, heads_of, terms_of, tops};
ghost use Rattle.scasp_bind.specs.Inside.Notes.{AreEnds};
ghost use Rattle.scasp_bind.specs.Inside.Soundness.{IsSoundNow, LeadsTo, resolver};

use crate::trailed::Trailed;
use crate::walks::{bound, note_way, noted, walk};
use scasp_list::Memory;
use scasp_name::NameId;
use scasp_num::Rat;
use scasp_syntax::{Term, Terms};
use std::alloc::Global;
use std::collections::HashMap;

/// A variable, a number, or a name with the number of its arguments.
#[derive(Drop)]
pub(crate) enum Head {
    Var(u64),
    Num(Rat),
    Name(NameId, usize),
}

/// The term as the bindings resolve it.
pub(crate) fn resolved(alloc: Global, store: &Trailed, term: &Term) -> Result<Term, Memory>
    requires { IsSoundNow store.now × (is_below (length store.now.variables) (tm_of term.now) ≡ true) }
    ensures { IfOk result (λ made. tm_of made ≡ under (resolver store.now) (tm_of term.now)) }
{
    let heads = spelled(alloc, store, term)?;
    let mut done = Vec::new(alloc);
    assemble(alloc, heads, &mut done)?;
    match done.pop() {
        Some(made) => Ok(made),
        None => unreachable!(),
    }
}

/// The heads of the resolved term, each before those of its arguments.
fn spelled<'a>(alloc: Global, store: &'a Trailed, term: &'a Term) -> Result<Vec<Head>, Memory>
    requires { IsSoundNow store.now × (is_below (length store.now.variables) (tm_of term.now) ≡ true) }
    ensures { IfOk result (λ heads. heads.items ≡ heads_of (under (resolver store.now) (tm_of term.now))) }
{
    let mut heads = Vec::new(alloc);
    let mut ends: HashMap<u64, &'a Term> = HashMap::new(alloc);
    let mut unseen: Vec<&'a Term> = Vec::new(alloc);
    unseen.push(term)?;
    while let Some(next) = unseen.pop() {
        let end = look(store, &mut ends, next)?;
        spell(&mut heads, &mut unseen, end)?;
    }
    Ok(heads)
}

/// Writes the head of the term down, and puts its arguments on the list.
fn spell<'a>(
    heads: &mut Vec<Head>,
    unseen: &mut Vec<&'a Term>,
    term: &'a Term,
) -> Result<(), Memory>
    ensures head { OnOk result (heads.new.items ≡ heads.old.items ++ head_of (tm_of term.now) ∷ []) }
    ensures unseen { OnOk result (reverse (terms_of unseen.new.items) ≡ items (args_of (tm_of term.now)) ++ reverse (terms_of unseen.old.items)) }
{
    match term {
        Term::Var(x) => heads.push(Head::Var(*x))?,
        Term::Num(value) => heads.push(Head::Num(*value))?,
        Term::App(name, args) => {
            heads.push(Head::Name(*name, args.len()))?;
            push_back(unseen, args)?;
        }
    }
    Ok(())
}

/// The term itself, or what it leads to where it is a bound variable. What variables on a long way lead to is noted, so
/// none is passed twice.
fn look<'a>(
    store: &'a Trailed,
    ends: &mut HashMap<u64, &'a Term>,
    term: &'a Term,
) -> Result<&'a Term, Memory>
    requires { IsSoundNow store.now × (is_below (length store.now.variables) (tm_of term.now) ≡ true) × AreEnds store.now (get nat_eq ends.old) }
    ensures end { IfOk result (λ end. LeadsTo store.now (tm_of term.now) (tm_of end.now)) }
    ensures ends { OnOk result (AreEnds store.now (get nat_eq ends.new)) }
{
    let end = end_of(store, ends, term);
    if !is_far(store, term) {
        return Ok(end);
    }
    note_way(store, ends, term, end)?;
    Ok(end)
}

/// The term itself, or what it leads to where it is a bound variable.
fn end_of<'a>(store: &'a Trailed, ends: &HashMap<u64, &'a Term>, term: &'a Term) -> &'a Term
    requires { IsSoundNow store.now × (is_below (length store.now.variables) (tm_of term.now) ≡ true) × AreEnds store.now (get nat_eq ends.now) }
    ensures { LeadsTo store.now (tm_of term.now) (tm_of result.now) }
{
    let reached = walk(store, ends, term);
    match noted(ends, reached) {
        Some(end) => end,
        None => reached,
    }
}

/// Whether the term is a variable that is bound to a bound variable.
fn is_far(store: &Trailed, term: &Term) -> bool
    requires { IsSoundNow store.now × (is_below (length store.now.variables) (tm_of term.now) ≡ true) }
{
    match bound(store, term) {
        Some(next) => bound(store, next).is_some(),
        None => false,
    }
}

/// Puts all the terms on the list, the first one last.
fn push_back<'a>(unseen: &mut Vec<&'a Term>, terms: &'a Terms) -> Result<(), Memory>
    ensures { OnOk result (reverse (terms_of unseen.new.items) ≡ items terms.now ++ reverse (terms_of unseen.old.items)) }
{
    let list = terms.as_slice();
    let mut place = list.len();
    while place > 0 {
        place -= 1;
        unseen.push(&list[place])?;
    }
    Ok(())
}

/// Builds what the heads say on top of the finished terms.
fn assemble(alloc: Global, mut heads: Vec<Head>, done: &mut Vec<Term>) -> Result<(), Memory>
    ensures { OnOk result (tops done.new.items ≡ assembled (reverse heads.items) (tops done.old.items)) }
{
    while let Some(head) = heads.pop() {
        match head {
            Head::Var(x) => done.push(Term::Var(x))?,
            Head::Num(value) => done.push(Term::Num(value))?,
            Head::Name(name, count) => build(alloc, name, count, done)?,
        }
    }
    Ok(())
}

/// Puts the name with the topmost finished terms in their place.
fn build(alloc: Global, name: NameId, count: usize, done: &mut Vec<Term>) -> Result<(), Memory>
    ensures { OnOk result (tops done.new.items ≡ app name (listed (take count (tops done.old.items))) ∷ drop count (tops done.old.items)) }
{
    let mut args = Terms::new(alloc);
    for _ in 0..count {
        if let Some(arg) = done.pop() {
            args.push(arg)?;
        }
    }
    done.push(Term::App(name, args))?;
    Ok(())
}
