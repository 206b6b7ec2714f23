//! Literals of the other sign.
ghost use Rattle.std.specs.Prelude.{◌≡◌, ◌≤◌, [], ◌++◌, filter, length, map, reverse, IfOk, OnOk};
ghost use Rattle.scasp_loops.specs.Held.{literal_of};
ghost use Rattle.scasp_loops.specs.Inside.Asked.{is_opposed, only_if, opposed, standing};
ghost use Rattle.scasp_loops.specs.Inside.Hinted.{AreHinted};
ghost use Rattle.scasp_loops.specs.Inside.Kept.{literals_in};
ghost use Rattle.scasp_search_rules.specs.Successors.Calls.{differing, is_free, is_opposite};
ghost use Rattle.scasp_search_rules.specs.Successors.Variables.{has_universal};
ghost use Rattle.scasp_syntax.specs.Tm.{app, cons, items, nil};
ghost use Rattle.scasp_syntax.specs.View.{tm_of};
ghost use Rattle.scasp_unify.specs.SimpleForm.{differ, list_term};

use crate::called::{Called, starts_apart};
use crate::entry::{Entry, Marks};
use crate::hints::{key_of, same_among, same_before};
use crate::innermost::{entry_at, marks_at};
use crate::lists::Lists;
use scasp_bound::Bound;
use scasp_list::Memory;
use scasp_name::{NIL, PAIR};
use scasp_syntax::{Con, Cons, Lit, Term, Terms, VarList, copy};
use scasp_variables::Variables;
use std::alloc::Global;

// ---- literals without universal variables

/// Whether some variable is universal.
fn has_universal(variables: &Variables, xs: &[u64]) -> bool
    ensures { result ≡ has_universal (standing variables.now.now [] []) xs.now }
{
    for x in xs {
        if variables.is_universal(*x) {
            return true;
        }
    }
    false
}

/// Whether the literal, as the bindings read it, has no universal variable.
fn is_free(alloc: Global, bound: &Bound, variables: &Variables, lit: &Lit) -> Result<bool, Memory>
    ensures { IfOk result (λ free. free ≡ is_free (standing variables.now.now bound.now.now []) lit.now) }
{
    let mut vars = VarList::new(alloc);
    bound.push_all_vars(alloc, &lit.atom.args, &mut vars)?;
    Ok(!has_universal(variables, vars.as_slice()))
}

// ---- literals of the other sign

/// Whether the literal is of the other sign and of the same predicate, and speaks of no universal variable.
fn is_opposite(
    alloc: Global,
    bound: &Bound,
    variables: &Variables,
    lit: &Lit,
    entry: &Entry,
    marks: Marks,
) -> Result<bool, Memory>
    ensures { IfOk result (λ is. is ≡ is_opposite (standing variables.now.now bound.now.now []) lit.now (literal_of 0 entry.now marks)) }
{
    if entry.lit.positive == lit.positive
        || entry.lit.atom.pred() != lit.atom.pred()
        || marks.is_general
    {
        return Ok(false);
    }
    is_free(alloc, bound, variables, &entry.lit)
}

/// The same, and whether its first argument does not clash with the call's.
fn is_opposed(
    alloc: Global,
    variables: &Variables,
    call: &Called<'_>,
    entry: &Entry,
    marks: Marks,
) -> Result<bool, Memory>
    ensures { IfOk result (λ is. is ≡ is_opposed (standing variables.now.now call.now.bound.now.now []) call.now.first call.now.lit.now (literal_of 0 entry.now marks)) }
{
    if starts_apart(call.bound, &call.first, &entry.lit) {
        return Ok(false);
    }
    is_opposite(alloc, call.bound, variables, call.lit, entry, marks)
}

/// The list of a term and the terms of a list.
fn list_of(alloc: Global, first: Term, rest: Term) -> Result<Term, Memory>
    ensures { IfOk result (λ made. tm_of made ≡ app 1 (cons (tm_of first) (cons (tm_of rest) nil))) }
{
    let mut both = Terms::new(alloc);
    both.push(first)?;
    both.push(rest)?;
    Ok(Term::App(PAIR, both))
}

/// The terms as one list.
fn list_term(alloc: Global, terms: &Terms) -> Result<Term, Memory>
    ensures { IfOk result (λ made. tm_of made ≡ list_term (items terms.now)) }
{
    let all = terms.as_slice();
    let mut place = all.len();
    let mut made = Term::App(NIL, Terms::new(alloc));
    while place > 0 {
        place -= 1;
        made = list_of(alloc, copy(alloc, &all[place])?, made)?;
    }
    Ok(made)
}

/// That the arguments of the two literals are different.
fn differing(alloc: Global, lit: &Lit, entry: &Entry) -> Result<Con, Memory>
    ensures { IfOk result (λ made. made ≡ differ (list_term (items lit.now.atom.args)) (list_term (items entry.now.lit.atom.args))) }
{
    Ok(Con::Neq(
        list_term(alloc, &lit.atom.args)?,
        list_term(alloc, &entry.lit.atom.args)?,
    ))
}

/// Puts that the arguments of the two literals are different behind the constraints of a list, if the two are opposite.
fn push_differing(
    alloc: Global,
    are_opposite: bool,
    lit: &Lit,
    entry: &Entry,
    list: &mut Cons,
) -> Result<(), Memory>
    ensures { OnOk result (list.new ≡ list.old ++ only_if are_opposite (differ (list_term (items lit.now.atom.args)) (list_term (items entry.now.lit.atom.args)))) }
{
    if are_opposite {
        list.push(differing(alloc, lit, entry)?)?;
    }
    Ok(())
}

/// The constraints from the last to the first.
fn turned(made: Cons) -> Cons
    ensures { result ≡ reverse made }
{
    let mut list = made.into_vec();
    list.reverse();
    Cons::from(list)
}

/// That the arguments differ from those of each literal that is opposite and does not clash with the call's first argument. It
/// goes back over those that have the key of the other sign.
#[tactic(auto, using(crate::proofs::AskLemmas::apart_start, crate::proofs::AskLemmas::apart_next, crate::proofs::AskLemmas::apart_whole, crate::proofs::ZipLemmas::literals_length))]
fn all_differing(
    alloc: Global,
    lists: &Lists,
    latest: &[usize],
    variables: &Variables,
    call: &Called<'_>,
) -> Result<Cons, Memory>
    requires fit { length lists.now.marks.now ≤ length lists.now.entries.now }
    requires hinted { AreHinted (literals_in lists.now) lists.now.hints.now latest.now }
    ensures { IfOk result (λ made. made ≡ map (differing call.now.lit.now) (filter (is_opposed (standing variables.now.now call.now.bound.now.now []) call.now.first call.now.lit.now) (literals_in lists.now))) }
{
    let entries = lists.entries.as_slice();
    let marks = lists.marks.as_slice();
    let hints = lists.hints.as_slice();
    let lit = call.lit;
    let key = key_of(!lit.positive, lit.atom.name);
    let mut made = Cons::new(alloc);
    let mut left = same_among(latest, key, marks.len());
    'literals: while left > 0 {
        let at = left - 1;
        let entry = entry_at(entries, at);
        let are_opposed = is_opposed(alloc, variables, call, entry, marks_at(marks, at))?;
        push_differing(alloc, are_opposed, lit, entry, &mut made)?;
        left = same_before(hints, key, at);
    }
    Ok(turned(made))
}

/// That the arguments differ from those of each literal that is opposite and does not clash with the call's first argument, if
/// the literal itself has no universal variable.
pub(crate) fn apart_from_opposites(
    alloc: Global,
    lists: &Lists,
    latest: &[usize],
    variables: &Variables,
    call: &Called<'_>,
) -> Result<Cons, Memory>
    requires fit { length lists.now.marks.now ≤ length lists.now.entries.now }
    requires hinted { AreHinted (literals_in lists.now) lists.now.hints.now latest.now }
    ensures { IfOk result (λ made. made ≡ map (differing call.now.lit.now) (opposed (standing variables.now.now call.now.bound.now.now (literals_in lists.now)) call.now.first call.now.lit.now)) }
{
    if is_free(alloc, call.bound, variables, call.lit)? {
        all_differing(alloc, lists, latest, variables, call)
    } else {
        Ok(Cons::new(alloc))
    }
}
