//! Literals that a call repeats: the nearest one above, and one that is seen again.
ghost use Rattle.std.specs.Prelude.{◌≡◌, ◌<◌, ◌≤◌, ℕ, false, filter, if◌then◌else◌, length, IfOk, List, MatchOption, Some, ⊤};
ghost use Rattle.std.specs.List.{list_all};
ghost use Rattle.scasp_loops.specs.Held.{literal_of};
ghost use Rattle.scasp_loops.specs.Inside.Asked.{first_root, is_alike, is_left_firm, is_not, is_repeated, is_seen};
ghost use Rattle.scasp_loops.specs.Inside.Hinted.{AreHinted, AreHints, Within, lit_key};
ghost use Rattle.scasp_loops.specs.Inside.Kept.{literals_in};
ghost use Rattle.scasp_loops.specs.Inside.Open.{IsLast, open_among};
ghost use Rattle.scasp_loops.specs.Inside.Topped.{AreTops, IsFloor, first_read};
ghost use Rattle.scasp_readings.specs.Readings.{reading};
ghost use Rattle.scasp_search_rules.specs.Successors.Calls.{is_firm, is_same, nearest};
ghost use Rattle.scasp_search_rules.specs.Successors.Reading.{among};
ghost use Rattle.scasp_search_state.specs.Words.{first_number};
ghost use Rattle.scasp_syntax.specs.Values.{all_under};
ghost use Rattle.scasp_syntax.specs.declared.atom.Lit.{Lit as ThisLit};
ghost use Rattle.scasp_unify.specs.Solving.{sub_of};
ghost use Rattle.scasp_unify.specs.declared.bindings.Binding.{Binding};

use crate::called::{Called, first_root, starts_apart};
use crate::entry::{Entry, Marks};
use crate::hints::{all_start_before, around_before, key_of, same_among, same_before};
use crate::innermost::{entry_at, last_open, marks_at};
use crate::lists::{Lists, open_same};
use scasp_bound::Bound;
use scasp_list::Memory;
use scasp_readings::is_among;
use scasp_search_rules::Repeated;
use scasp_syntax::{Lit, Terms};
use std::alloc::Global;

/// Whether the literals have one sign and one name, whatever their arguments.
fn is_alike(lit: &Lit, other: &Lit) -> bool
    ensures { result ≡ is_alike lit.now other.now }
{
    lit.positive == other.positive
        && lit.atom.minus == other.atom.minus
        && lit.atom.name == other.atom.name
}

/// Whether the literal is this one, as the bindings read both.
fn is_same(
    alloc: Global,
    bound: &Bound,
    lit: &Lit,
    entry: &Entry,
    marks: Marks,
) -> Result<bool, Memory>
    ensures { IfOk result (λ same. same ≡ is_same (reading bound.now.now) lit.now (literal_of 0 entry.now marks)) }
{
    if marks.is_general || !is_alike(&entry.lit, lit) {
        return Ok(false);
    }
    bound.same_terms(alloc, &entry.lit.atom.args, &lit.atom.args)
}

// ---- with which variable a literal starts

/// The variable that the first of the terms reads as.
#[tactic(auto, using(crate::proofs::TopLemmas::none_read, crate::proofs::TopLemmas::some_read))]
fn first_read(bound: &Bound, terms: &Terms) -> Option<u64>
    ensures { result ≡ first_read bound.now.now terms.now }
{
    match terms.as_slice().split_first() {
        None => None,
        Some((first, _)) => bound.variable_of(first),
    }
}

/// The variable that the literal starts with, as it is read, where one that starts before it is known to be another literal.
#[tactic(auto, using(crate::proofs::TopLemmas::floor_is))]
fn floor_of(bound: &Bound, raised: u64, lit: &Lit) -> Option<u64>
    ensures { MatchOption result ⊤ (λ r. IsFloor raised bound.now.now lit.now r) }
{
    let Some(first) = first_read(bound, &lit.atom.args) else {
        return None;
    };
    let Some(rise) = bound.rise() else {
        return None;
    };
    if rise < first && raised < first {
        Some(first)
    } else {
        None
    }
}

// ---- the nearest literal above

/// Whether the literal is open and is this one, as the bindings read both.
fn is_repeated(
    alloc: Global,
    bound: &Bound,
    lit: &Lit,
    entry: &Entry,
    marks: Marks,
) -> Result<bool, Memory>
    ensures { IfOk result (λ is. is ≡ is_repeated (reading bound.now.now) lit.now (literal_of 0 entry.now marks)) }
{
    if marks.is_done {
        return Ok(false);
    }
    is_same(alloc, bound, lit, entry, marks)
}

/// A place from which on no open literal before `at` is the one with this key and floor.
#[tactic(auto, using(crate::proofs::TopLemmas::unrepeated_floor, crate::proofs::AskLemmas::unrepeated_key))]
fn unrepeated_before(lists: &Lists, key: usize, floor: Option<u64>, at: usize) -> usize
    requires hints { AreHints (literals_in lists.now) lists.now.hints.now }
    requires tops { AreTops lists.now.raised lists.now.entries.now lists.now.hints.now }
    ensures place { result ≤ at }
    ensures others { (bs : List Binding) → (l : ThisLit) → key ≡ lit_key l → MatchOption floor ⊤ (λ r. IsFloor lists.now.raised bs l r) → Within (is_not (is_repeated (reading bs) l)) result at (literals_in lists.now) }
{
    let hints = lists.hints.as_slice();
    let Some(first) = floor else {
        return around_before(hints, key, at);
    };
    if all_start_before(hints, first, at) {
        0
    } else {
        around_before(hints, key, at)
    }
}

/// The place of the last literal that is open and is this one, as the bindings read both. It goes back over those that are open
/// and have the key, to where none starts with the variable that this one starts with, or a later one.
#[tactic(auto, using(crate::proofs::AskLemmas::unrepeated_key, crate::proofs::AskLemmas::unrepeated_step, crate::proofs::AskLemmas::last_here, crate::proofs::HintLemmas::from_first, crate::proofs::ZipLemmas::literals_length))]
fn last_repeated(
    alloc: Global,
    lists: &Lists,
    latest: &[usize],
    bound: &Bound,
    lit: &Lit,
) -> Result<Option<usize>, Memory>
    requires fit { length lists.now.marks.now ≤ length lists.now.entries.now }
    requires hinted { AreHinted (literals_in lists.now) lists.now.hints.now latest.now }
    requires tops { AreTops lists.now.raised lists.now.entries.now lists.now.hints.now }
    ensures last { IfOk result (λ found. MatchOption found (Within (is_not (is_repeated (reading bound.now.now) lit.now)) 0 (length lists.now.marks.now) (literals_in lists.now)) (λ at. IsLast bound.now.now lit.now at (literals_in lists.now))) }
    ensures place { IfOk result (λ found. MatchOption found ⊤ (λ at. at < length lists.now.marks.now)) }
{
    let entries = lists.entries.as_slice();
    let marks = lists.marks.as_slice();
    let key = key_of(lit.positive, lit.atom.name);
    let floor = floor_of(bound, lists.raised, lit);
    let mut left = open_same(lists, latest, key);
    'above: while left > 0 {
        let at = left - 1;
        let entry = entry_at(entries, at);
        if is_repeated(alloc, bound, lit, entry, marks_at(marks, at))? {
            return Ok(Some(at));
        }
        left = unrepeated_before(lists, key, floor, at);
    }
    Ok(None)
}

/// Whether a negated literal is open behind the place, at which the last literal stands that is open and is the one called.
#[tactic(auto, using(crate::proofs::AskLemmas::nearest_last, crate::proofs::AskLemmas::nearest_lost, crate::proofs::AskLemmas::nearest_behind, crate::proofs::AskLemmas::nearest_whole))]
fn is_behind_negation(lists: &Lists, at: usize) -> bool
    requires fit { length lists.now.marks.now ≤ length lists.now.entries.now }
    requires hints { AreHints (literals_in lists.now) lists.now.hints.now }
    requires place { at < length lists.now.marks.now }
    ensures { (bs : List Binding) → (l : ThisLit) → IsLast bs l at (literals_in lists.now) → Some (record { number = at; is_behind_negation = result }) ≡ nearest (reading bs) l false (open_among (literals_in lists.now)) }
{
    let entries = lists.entries.as_slice();
    let marks = lists.marks.as_slice();
    let hints = lists.hints.as_slice();
    let mut left = marks.len();
    let mut passed = false;
    'above: while let Some(place) = last_open(entries, marks, hints, left) {
        let entry = entry_at(entries, place);
        let _marks = marks_at(marks, place);
        if place <= at {
            return passed;
        }
        passed = passed || !entry.lit.positive;
        left = place;
    }
    passed
}

/// The nearest open literal that is this one, as the bindings read both.
#[tactic(auto, using(crate::proofs::AskLemmas::nearest_nowhere))]
pub(crate) fn nearest_open(
    alloc: Global,
    lists: &Lists,
    latest: &[usize],
    bound: &Bound,
    lit: &Lit,
) -> Result<Option<Repeated>, Memory>
    requires fit { length lists.now.marks.now ≤ length lists.now.entries.now }
    requires hinted { AreHinted (literals_in lists.now) lists.now.hints.now latest.now }
    requires tops { AreTops lists.now.raised lists.now.entries.now lists.now.hints.now }
    ensures { IfOk result (λ found. found ≡ nearest (reading bound.now.now) lit.now false (open_among (literals_in lists.now))) }
{
    match last_repeated(alloc, lists, latest, bound, lit)? {
        Some(at) => {
            let is_behind_negation = is_behind_negation(lists, at);
            Ok(Some(Repeated {
                number: at as u64,
                is_behind_negation,
            }))
        }
        None => Ok(None),
    }
}

// ---- a literal that is seen

/// Whether each case around the literal is open, where these are, or is of a plain cover.
fn is_in_scope(entry: &Entry, cases: &[u64]) -> bool
    ensures { result ≡ list_all (λ k. among k cases.now) entry.now.cases }
{
    for case in entry.cases.as_slice() {
        if !is_among(*case, cases) {
            return false;
        }
    }
    true
}

/// Whether no positive loop leads out of the literal.
fn is_firm(entry: &Entry, marks: Marks) -> bool
    ensures { result ≡ is_firm (literal_of 0 entry.now marks) }
{
    !(entry.lit.positive && marks.loops)
}

/// Whether the literal is done, firm and in scope, where these cases are open.
fn is_left_firm(entry: &Entry, marks: Marks, cases: &[u64]) -> bool
    ensures { result ≡ is_left_firm cases.now (literal_of 0 entry.now marks) }
{
    marks.is_done && is_firm(entry, marks) && is_in_scope(entry, cases)
}

/// Whether the call sees the literal again, where these cases are open.
#[tactic(auto, using(crate::proofs::AskLemmas::unseen_apart, crate::proofs::ApartLemmas::unseen_clash))]
fn is_seen(
    alloc: Global,
    cases: &[u64],
    call: &Called<'_>,
    entry: &Entry,
    marks: Marks,
) -> Result<bool, Memory>
    requires { call.now.first ≡ first_root (all_under (sub_of call.now.bound.now.now) call.now.lit.now.atom.args) }
    ensures { IfOk result (λ seen. seen ≡ is_seen call.now.bound.now.now cases.now call.now.lit.now (literal_of 0 entry.now marks)) }
{
    if starts_apart(call.bound, &call.first, &entry.lit) {
        return Ok(false);
    }
    if is_alike(&entry.lit, call.lit) && is_left_firm(entry, marks, cases) {
        is_same(alloc, call.bound, call.lit, entry, marks)
    } else {
        Ok(false)
    }
}

/// The number at the place if it is so, and else the one that was found.
fn earlier_if(is: bool, at: usize, found: Option<u64>) -> Option<u64>
    ensures { result ≡ (if is then Some at else found) }
{
    if is { Some(at as u64) } else { found }
}

/// A place from which on a call of the literal with this key and floor sees none before `at`.
#[tactic(auto, using(crate::proofs::TopLemmas::unseen_floor, crate::proofs::AskLemmas::unseen_key))]
fn unseen_before(lists: &Lists, key: usize, floor: Option<u64>, at: usize) -> usize
    requires hints { AreHints (literals_in lists.now) lists.now.hints.now }
    requires tops { AreTops lists.now.raised lists.now.entries.now lists.now.hints.now }
    ensures place { result ≤ at }
    ensures others { (bs : List Binding) → (cases : List ℕ) → (l : ThisLit) → key ≡ lit_key l → MatchOption floor ⊤ (λ r. IsFloor lists.now.raised bs l r) → Within (is_not (is_seen bs cases l)) result at (literals_in lists.now) }
{
    let hints = lists.hints.as_slice();
    let Some(first) = floor else {
        return same_before(hints, key, at);
    };
    if all_start_before(hints, first, at) {
        0
    } else {
        same_before(hints, key, at)
    }
}

/// The number of the earliest literal that a call sees again, where these cases are open. It goes back over those that have the
/// call's key, to where none starts with the variable that the call starts with, or a later one.
#[tactic(auto, using(crate::proofs::AskLemmas::seen_start, crate::proofs::AskLemmas::seen_whole, crate::proofs::ZipLemmas::literals_length))]
pub(crate) fn first_seen(
    alloc: Global,
    lists: &Lists,
    latest: &[usize],
    bound: &Bound,
    cases: &[u64],
    lit: &Lit,
) -> Result<Option<u64>, Memory>
    requires fit { length lists.now.marks.now ≤ length lists.now.entries.now }
    requires hinted { AreHinted (literals_in lists.now) lists.now.hints.now latest.now }
    requires tops { AreTops lists.now.raised lists.now.entries.now lists.now.hints.now }
    ensures { IfOk result (λ found. found ≡ first_number (filter (is_seen bound.now.now cases.now lit.now) (literals_in lists.now))) }
{
    let entries = lists.entries.as_slice();
    let marks = lists.marks.as_slice();
    let key = key_of(lit.positive, lit.atom.name);
    let floor = floor_of(bound, lists.raised, lit);
    let first = first_root(bound, &lit.atom.args);
    let call = Called { bound, lit, first };
    let mut found = None;
    let mut left = same_among(latest, key, marks.len());
    'literals: while left > 0 {
        let at = left - 1;
        let entry = entry_at(entries, at);
        let sees = is_seen(alloc, cases, &call, entry, marks_at(marks, at))?;
        found = earlier_if(sees, at, found);
        left = unseen_before(lists, key, floor, at);
    }
    Ok(found)
}
