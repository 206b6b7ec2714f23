//! Literals that are open, and their marks.
ghost use Rattle.std.specs.Prelude.{◌≡◌, ◌<◌, ◌≤◌, ◌+◌, ◌&&◌, ℕ, [], List, length, slice_get, true, MatchOption, Some, OnOk, ⊤};
ghost use Rattle.scasp_loops.specs.Inside.Changed.{changed, done, looped, looped_at};
ghost use Rattle.scasp_loops.specs.Inside.Hinted.{AreHints, Within, is_done};
ghost use Rattle.scasp_loops.specs.Inside.Kept.{AllStay};
ghost use Rattle.scasp_loops.specs.Inside.Open.{OpensAt, left, looped_out, moved_if, open_in};
ghost use Rattle.scasp_loops.specs.Inside.Topped.{AreTops};
ghost use Rattle.scasp_loops.specs.Inside.Zipped.{literals_from};
ghost use Rattle.scasp_loops.specs.declared.entry.Entry.{Entry as ThisEntry};
ghost use Rattle.scasp_search_rules.specs.declared.states.state.Literal.{Literal as ThisLiteral};

use crate::entry::{Entry, Marks};
use crate::hints::{Hint, hint_at, undone_before};
use scasp_list::Memory;
use scasp_trail::Trailed;

/// The literal at the place, and the cases around it.
pub(crate) fn entry_at(entries: &[Entry], at: usize) -> &Entry
    requires { at < length entries.now }
    ensures { slice_get entries.now at ≡ Some result.now }
{
    &entries[at]
}

/// The marks at the place.
pub(crate) fn marks_at(marks: &[Marks], at: usize) -> Marks
    requires { at < length marks.now }
    ensures { slice_get marks.now at ≡ Some result }
{
    marks[at]
}

/// The place of the last open literal among the first ones, so many.
#[tactic(auto, using(crate::proofs::OpenLemmas::one_done, crate::proofs::OpenLemmas::one_open, crate::proofs::OpenLemmas::none_open, crate::proofs::HintLemmas::none_within))]
pub(crate) fn last_open(
    entries: &[Entry],
    marks: &[Marks],
    hints: &[Hint],
    count: usize,
) -> Option<usize>
    requires fit { length marks.now ≤ length entries.now }
    requires count { count ≤ length marks.now }
    requires hints { AreHints (literals_from 0 entries.now marks.now) hints.now }
    ensures open { MatchOption result (open_in count entries.now marks.now ≡ []) (λ at. OpensAt entries.now marks.now count at) }
    ensures place { MatchOption result ⊤ (λ at. at < count) }
    ensures done { MatchOption result (Within is_done 0 count (literals_from 0 entries.now marks.now)) (λ at. Within is_done (at + 1) count (literals_from 0 entries.now marks.now)) }
{
    let mut left = count;
    'literals: while left > 0 {
        let at = left - 1;
        if marks_at(marks, at).is_done {
            left = undone_before(hints, at);
        } else {
            return Some(at);
        }
    }
    None
}

/// The place behind the last open literal among the first ones, so many.
fn behind_open(entries: &[Entry], marks: &[Marks], hints: &[Hint], count: usize) -> usize
    requires fit { length marks.now ≤ length entries.now }
    requires count { count ≤ length marks.now }
    requires hints { AreHints (literals_from 0 entries.now marks.now) hints.now }
    ensures place { result ≤ count }
    ensures done { Within is_done result count (literals_from 0 entries.now marks.now) }
{
    match last_open(entries, marks, hints, count) {
        Some(at) => at + 1,
        None => 0,
    }
}

/// Notes of the literal at the place from where on all before it are done.
#[tactic(auto, using(crate::proofs::HintLemmas::noted_undone, crate::proofs::TopLemmas::tops_set))]
fn note_undone(hints: &mut Trailed<Hint>, at: usize, undone: usize) -> Result<(), Memory>
    ensures hints { (ls : List ThisLiteral) → AreHints ls hints.old.now → Within is_done undone at ls → AreHints ls hints.new.now }
    ensures tops { (n : ℕ) → (es : List ThisEntry) → AreTops n es hints.old.now → AreTops n es hints.new.now }
    ensures before { hints.new.before ≡ hints.old.before }
    ensures len { length hints.new.now ≡ length hints.old.now }
{
    match hint_at(hints.as_slice(), at) {
        Some(old) => {
            if undone == old.undone {
                return Ok(());
            }
            let new = Hint {
                key: old.key,
                same: old.same,
                around: old.around,
                undone,
                varied: old.varied,
                top: old.top,
            };
            hints.set(at, new)
        }
        None => Ok(()),
    }
}

/// Notes of the last literal which ones before it are done.
pub(crate) fn note_done(
    entries: &[Entry],
    marks: &[Marks],
    hints: &mut Trailed<Hint>,
) -> Result<(), Memory>
    requires fit { length marks.now ≤ length entries.now }
    requires hints { AreHints (literals_from 0 entries.now marks.now) hints.old.now }
    ensures hints { AreHints (literals_from 0 entries.now marks.now) hints.new.now }
    ensures tops { (n : ℕ) → (es : List ThisEntry) → AreTops n es hints.old.now → AreTops n es hints.new.now }
    ensures before { hints.new.before ≡ hints.old.before }
    ensures len { length hints.new.now ≡ length hints.old.now }
{
    let count = marks.len();
    if count == 0 {
        return Ok(());
    }
    let undone = behind_open(entries, marks, hints.as_slice(), count);
    note_undone(hints, count - 1, undone)
}

/// A positive loop leads out of the literal at the place.
#[tactic(auto, using(crate::proofs::ZipLemmas::set_changed, crate::proofs::ZipLemmas::changed_length, crate::proofs::HintLemmas::stay_equal))]
fn mark_loop(marks: &mut Trailed<Marks>, at: usize) -> Result<(), Memory>
    requires { at < length marks.old.now }
    ensures now { OnOk result (marks.new.now ≡ changed at looped marks.old.now) }
    ensures before { marks.new.before ≡ marks.old.before }
    ensures len { length marks.new.now ≡ length marks.old.now }
    ensures stay { (es : List ThisEntry) → AllStay (literals_from 0 es marks.old.now) (literals_from 0 es marks.new.now) }
{
    let old = marks_at(marks.as_slice(), at);
    let new = Marks {
        is_done: old.is_done,
        loops: true,
        is_general: old.is_general,
    };
    marks.set(at, new)?;
    Ok(())
}

/// The literal at the place is done.
#[tactic(auto, using(crate::proofs::ZipLemmas::set_changed, crate::proofs::ZipLemmas::changed_length, crate::proofs::HintLemmas::stay_equal))]
fn mark_done(marks: &mut Trailed<Marks>, at: usize) -> Result<(), Memory>
    requires { at < length marks.old.now }
    ensures now { OnOk result (marks.new.now ≡ changed at done marks.old.now) }
    ensures before { marks.new.before ≡ marks.old.before }
    ensures len { length marks.new.now ≡ length marks.old.now }
    ensures stay { (es : List ThisEntry) → AllStay (literals_from 0 es marks.old.now) (literals_from 0 es marks.new.now) }
{
    let old = marks_at(marks.as_slice(), at);
    let new = Marks {
        is_done: true,
        loops: old.loops,
        is_general: old.is_general,
    };
    marks.set(at, new)?;
    Ok(())
}

/// A positive loop leads out of the literal at the place, if there is one.
#[tactic(auto, using(crate::proofs::HintLemmas::all_stay))]
fn mark_loop_at(marks: &mut Trailed<Marks>, place: Option<usize>) -> Result<(), Memory>
    requires { MatchOption place ⊤ (λ at. at < length marks.old.now) }
    ensures now { OnOk result (marks.new.now ≡ looped_at place marks.old.now) }
    ensures before { marks.new.before ≡ marks.old.before }
    ensures len { length marks.new.now ≡ length marks.old.now }
    ensures stay { (es : List ThisEntry) → AllStay (literals_from 0 es marks.old.now) (literals_from 0 es marks.new.now) }
{
    match place {
        Some(at) => mark_loop(marks, at),
        None => Ok(()),
    }
}

/// The place of the last open literal among the first ones, so many, where it is positive.
#[tactic(auto, using(crate::proofs::OpenLemmas::moved_past, crate::proofs::OpenLemmas::moved_one, crate::proofs::OpenLemmas::moved_off))]
fn positive_among(entries: &[Entry], marks: &[Marks], hints: &[Hint], count: usize) -> Option<usize>
    requires fit { length marks.now ≤ length entries.now }
    requires count { count ≤ length marks.now }
    requires hints { AreHints (literals_from 0 entries.now marks.now) hints.now }
    ensures moved { result ≡ moved_if true (open_in count entries.now marks.now) }
    ensures place { MatchOption result ⊤ (λ at. at < length marks.now) }
{
    match last_open(entries, marks, hints, count) {
        Some(at) => {
            let _marks = marks_at(marks, at);
            if entry_at(entries, at).lit.positive {
                Some(at)
            } else {
                None
            }
        }
        None => None,
    }
}

/// The same, where a mark moves on.
#[tactic(auto, using(crate::proofs::OpenLemmas::moved_none))]
fn moves_to(
    entries: &[Entry],
    marks: &[Marks],
    hints: &[Hint],
    count: usize,
    moves: bool,
) -> Option<usize>
    requires fit { length marks.now ≤ length entries.now }
    requires count { count ≤ length marks.now }
    requires hints { AreHints (literals_from 0 entries.now marks.now) hints.now }
    ensures moved { result ≡ moved_if moves (open_in count entries.now marks.now) }
    ensures place { MatchOption result ⊤ (λ at. at < length marks.now) }
{
    if moves {
        positive_among(entries, marks, hints, count)
    } else {
        None
    }
}

/// A positive loop leads out of the innermost open literal.
#[tactic(auto, using(crate::proofs::OpenLemmas::looped_none, crate::proofs::OpenLemmas::looped_one, crate::proofs::HintLemmas::all_stay))]
pub(crate) fn loop_out(
    entries: &[Entry],
    marks: &mut Trailed<Marks>,
    hints: &[Hint],
) -> Result<(), Memory>
    requires fit { length marks.old.now ≤ length entries.now }
    requires hints { AreHints (literals_from 0 entries.now marks.old.now) hints.now }
    ensures now { OnOk result (literals_from 0 entries.now marks.new.now ≡ looped_out (literals_from 0 entries.now marks.old.now)) }
    ensures before { marks.new.before ≡ marks.old.before }
    ensures len { length marks.new.now ≡ length marks.old.now }
    ensures stay { AllStay (literals_from 0 entries.now marks.old.now) (literals_from 0 entries.now marks.new.now) }
{
    match last_open(entries, marks.as_slice(), hints, marks.len()) {
        Some(at) => {
            let _entry = entry_at(entries, at);
            let _marks = marks_at(marks.as_slice(), at);
            mark_loop(marks, at)
        }
        None => Ok(()),
    }
}

/// The innermost open literal is done. A mark moves on from a positive literal to a positive one around it.
#[tactic(auto, using(crate::proofs::OpenLemmas::left_none, crate::proofs::OpenLemmas::left_one, crate::proofs::HintLemmas::all_stay, crate::proofs::HintLemmas::stay_both))]
pub(crate) fn end_last(
    entries: &[Entry],
    marks: &mut Trailed<Marks>,
    hints: &[Hint],
) -> Result<(), Memory>
    requires fit { length marks.old.now ≤ length entries.now }
    requires hints { AreHints (literals_from 0 entries.now marks.old.now) hints.now }
    ensures now { OnOk result (literals_from 0 entries.now marks.new.now ≡ left (literals_from 0 entries.now marks.old.now)) }
    ensures before { marks.new.before ≡ marks.old.before }
    ensures len { length marks.new.now ≡ length marks.old.now }
    ensures stay { AllStay (literals_from 0 entries.now marks.old.now) (literals_from 0 entries.now marks.new.now) }
{
    let list = marks.as_slice();
    let Some(at) = last_open(entries, list, hints, marks.len()) else {
        return Ok(());
    };
    let entry = entry_at(entries, at);
    let old = marks_at(list, at);
    let moves = moves_on(entry, old);
    let around = moves_to(entries, list, hints, at, moves);
    mark_done(marks, at)?;
    mark_loop_at(marks, around)?;
    Ok(())
}

/// Whether a mark moves on from the literal, if the one around it is positive, too.
fn moves_on(entry: &Entry, marks: Marks) -> bool
    ensures { result ≡ (marks.loops && entry.now.lit.positive) }
{
    marks.loops && entry.lit.positive
}
