//! Given constraints that need not be asked any more.
ghost use Rattle.std.specs.Prelude.{◌≡◌, ◌++◌, ◌<◌, ◌+◌, ◌-◌, ℕ, IfOk, List, OnOk, Some, length, slice_get, true};
ghost use Rattle.std.specs.List.{list_all, list_any};
ghost use Rattle.scasp_bound.specs.Bounds.{among};
ghost use Rattle.scasp_law_parts.specs.Bound.{Triangular};
ghost use Rattle.scasp_store.specs.Inside.Open.{GoodOf, IsNew, IsSettled, SameMarks, is_taken, is_unbound, one_of, opened};
ghost use Rattle.scasp_syntax.specs.View.{tm_of};
ghost use Rattle.scasp_syntax.specs.declared.con.Con.{Con as ThisCon};
ghost use Rattle.scasp_unify.specs.Solving.{sub_of};
ghost use Rattle.scasp_unify.specs.Unification.{term_vars};
ghost use Rattle.scasp_unify.specs.declared.bindings.Binding.{Binding as ThisBinding};

use crate::asking::{has_values, is_readable, note_row};
use crate::keeping::fix_at;
use crate::rest::Rest;
use scasp_bound::Bound;
use scasp_list::Memory;
use scasp_readings::{is_among, read_con};
use scasp_search_terms::constraints::push_vars;
use scasp_search_terms::forms::holds_always;
use scasp_search_terms::regions::push_copies;
use scasp_syntax::{Con, Cons, DeepCopy, Term, VarList};
use scasp_trail::Trailed;
use scasp_unify::Binding;
use std::alloc::Global;

/// Whether the constraint holds as the bindings read it, whatever its variables stand for.
#[tactic(auto, using(crate::proofs::AskLemmas::settled))]
fn is_settled(alloc: Global, bound: &Bound, constraint: &Con) -> Result<bool, Memory>
    ensures { Triangular bound.now.now → IfOk result (λ answer. answer ≡ true → IsSettled (sub_of bound.now.now) constraint.now) }
{
    note_row(constraint);
    if !has_values(alloc, bound, constraint)? {
        return Ok(false);
    }
    if !is_readable(alloc, bound, constraint)? {
        return Ok(false);
    }
    let read = read_con(alloc, bound, constraint)?;
    holds_always(alloc, &read)
}

/// Whether the constraint at the place is settled; where there is none, it is not.
fn is_settled_at(alloc: Global, bound: &Bound, given: &[Con], place: usize) -> Result<bool, Memory>
    ensures { (c : ThisCon) → Triangular bound.now.now → Some c ≡ slice_get given.now place → IfOk result (λ answer. answer ≡ true → IsSettled (sub_of bound.now.now) c) }
{
    match given.get(place) {
        Some(constraint) => is_settled(alloc, bound, constraint),
        None => Ok(false),
    }
}

/// The place at `at`.
fn place_at(places: &[usize], at: usize) -> usize
    requires { at < length places.now }
    ensures { Some result ≡ slice_get places.now at }
{
    places[at]
}

/// Takes the place at `at` away. The last place comes there.
#[tactic(auto, using(crate::proofs::OpenLemmas::taken_away, crate::proofs::OpenLemmas::set_in, crate::proofs::OpenLemmas::one_less))]
fn take_away(places: &mut Trailed<usize>, at: usize) -> Result<(), Memory>
    requires { at < length places.old.now }
    ensures stay { (j : ℕ) → among j places.old.now ≡ true → (Some j ≡ slice_get places.old.now at → ⊥) → among j places.new.now ≡ true }
    ensures length { OnOk result (length places.new.now + 1 ≡ length places.old.now) }
    ensures before { places.new.before ≡ places.old.before }
{
    let last = place_at(places.as_slice(), places.len() - 1);
    places.set(at, last)?;
    places.pop()?;
    Ok(())
}

/// Fixes what the constraint of the place at `at` leaves to a variable, and takes the place away where its constraint is
/// settled. Returns at which to go on.
fn settle_at(alloc: Global, given: &[Con], rest: &mut Rest, at: usize) -> Result<usize, Memory>
    requires { at < length rest.old.places.now }
    ensures good { OnOk result ((bs : List ThisBinding) → GoodOf bs given.now rest.old → GoodOf bs given.now rest.new) }
    ensures less { IfOk result (λ next. length rest.new.places.now - next < length rest.old.places.now - at) }
    ensures marks { SameMarks rest.old rest.new }
{
    let behind = next_of(rest.places.len(), at);
    let place = place_at(rest.places.as_slice(), at);
    fix_at(alloc, given, place, rest)?;
    if !is_settled_at(alloc, &rest.reading, given, place)? {
        return Ok(behind);
    }
    take_away(&mut rest.places, at)?;
    Ok(at)
}

/// The number behind one that is below the length of a list.
fn next_of(len: usize, at: usize) -> usize
    requires { at < len }
    ensures { result ≡ at + 1 }
{
    at + 1
}

/// Fixes what open constraints leave to variables, and takes the places of all settled ones away.
pub(crate) fn settle(alloc: Global, given: &[Con], rest: &mut Rest) -> Result<(), Memory>
    ensures good { OnOk result ((bs : List ThisBinding) → GoodOf bs given.now rest.old → GoodOf bs given.now rest.new) }
    ensures marks { SameMarks rest.old rest.new }
{
    let mut at = 0;
    while at < rest.places.len() {
        at = settle_at(alloc, given, rest, at)?;
    }
    Ok(())
}

/// Takes all items away.
pub(crate) fn clear<T: Drop>(items: &mut Trailed<T>) -> Result<(), Memory>
    ensures { items.new.before ≡ items.old.before }
{
    'all: for _ in 0..items.len() {
        items.pop()?;
    }
    Ok(())
}

/// All constraints are open again, of which there are so many.
#[tactic(auto, using(crate::proofs::OpenLemmas::one_open))]
pub(crate) fn open_all(places: &mut Trailed<usize>, count: usize) -> Result<(), Memory>
    ensures now { OnOk result ((i : ℕ) → i < count → among i places.new.now ≡ true) }
    ensures before { places.new.before ≡ places.old.before }
{
    clear(places)?;
    let mut place = 0;
    while place < count {
        places.push(place)?;
        place += 1;
    }
    Ok(())
}

/// Whether a variable of the list that is not in the other one is bound.
pub(crate) fn takes_out(bound: &Bound, xs: &[u64], but: &[u64]) -> bool
    ensures { result ≡ list_any (is_taken bound.now.now but.now) xs.now }
{
    xs.iter().any(|x| bound.is_bound(*x) && !is_among(*x, but))
}

/// Puts a copy of the constraint at the place behind those of a list, if there is one.
fn push_at(alloc: Global, given: &[Con], place: usize, list: &mut Cons) -> Result<(), Memory>
    ensures { OnOk result (list.new ≡ list.old ++ one_of (slice_get given.now place)) }
{
    match given.get(place) {
        Some(constraint) => list.push(constraint.copy(alloc)?),
        None => Ok(()),
    }
}

/// Puts copies of the constraints at the places behind those of a list.
fn push_open(alloc: Global, given: &[Con], places: &[usize], list: &mut Cons) -> Result<(), Memory>
    ensures { OnOk result (list.new ≡ list.old ++ opened given.now places.now) }
{
    for place in places {
        push_at(alloc, given, *place, list)?;
    }
    Ok(())
}

/// The open constraints, and then those that are asked.
pub(crate) fn standing(
    alloc: Global,
    given: &[Con],
    places: &[usize],
    more: &[Con],
) -> Result<Cons, Memory>
    ensures { IfOk result (λ list. list ≡ opened given.now places.now ++ more.now) }
{
    let mut list = Cons::new(alloc);
    push_open(alloc, given, places, &mut list)?;
    push_copies(alloc, more, &mut list)?;
    Ok(list)
}

/// Whether the variables are unbound, and none of them is `x`.
fn are_unbound(bound: &Bound, x: u64, vars: &[u64]) -> bool
    ensures { result ≡ list_all (is_unbound bound.now.now x) vars.now }
{
    vars.iter().all(|y| x != *y && !bound.is_bound(*y))
}

/// The variables of the term, each as often as it stands there.
fn vars_of(alloc: Global, term: &Term) -> Result<VarList, Memory>
    ensures { IfOk result (λ vars. vars ≡ term_vars (tm_of term.now)) }
{
    let mut vars = VarList::new(alloc);
    push_vars(term, &mut vars)?;
    Ok(vars)
}

/// Whether the binding is of an unbound variable, to a term of other unbound variables, which are these.
fn are_new(bound: &Bound, binding: &Binding, vars: &[u64]) -> bool
    requires { vars.now ≡ term_vars (tm_of binding.now.term) }
    ensures { result ≡ true → IsNew bound.now.now binding.now }
{
    if bound.is_bound(binding.x) {
        return false;
    }
    are_unbound(bound, binding.x, vars)
}

/// Whether the binding is of an unbound variable, to a term of other unbound variables.
pub(crate) fn is_new(alloc: Global, bound: &Bound, binding: &Binding) -> Result<bool, Memory>
    ensures { IfOk result (λ answer. answer ≡ true → IsNew bound.now.now binding.now) }
{
    let vars = vars_of(alloc, &binding.term)?;
    Ok(are_new(bound, binding, vars.as_slice()))
}
