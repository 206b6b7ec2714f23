//! What literals read as at the end of a case.
ghost use Rattle.std.specs.Prelude.{◌≡◌, ◌<◌, ◌≤◌, ℕ, List, length, map, IfOk, OnOk};
ghost use Rattle.std.specs.List.{list_any};
ghost use Rattle.scasp_bound.specs.Bounds.{ReadsDown};
ghost use Rattle.scasp_loops.specs.Inside.Changed.{changed, general_if};
ghost use Rattle.scasp_loops.specs.Inside.Hinted.{AreHints, Within, has_no_variable};
ghost use Rattle.scasp_loops.specs.Inside.Kept.{AllStay, literals_in};
ghost use Rattle.scasp_loops.specs.Inside.Topped.{AreTops};
ghost use Rattle.scasp_loops.specs.Inside.Zipped.{literals_from};
ghost use Rattle.scasp_loops.specs.declared.entry.Entry.{Entry as ThisEntry};
ghost use Rattle.scasp_loops.specs.declared.hints.Hint.{Hint as ThisHint};
ghost use Rattle.scasp_readings.specs.Readings.{reading};
ghost use Rattle.scasp_search_rules.specs.Successors.Cases.{kept_literal};
ghost use Rattle.scasp_search_rules.specs.Successors.Reading.{among};
ghost use Rattle.scasp_search_rules.specs.declared.states.state.Literal.{Literal as ThisLiteral};
ghost use Rattle.scasp_unify.specs.Unification.{terms_vars};

use crate::entry::{Entry, Marks};
use crate::hints::{Hint, hint_at, varied_before};
use crate::innermost::{entry_at, marks_at};
use crate::lists::Lists;
use scasp_bound::Bound;
use scasp_list::Memory;
use scasp_readings::{is_among, read_lit};
use scasp_search_terms::constraints::push_all_vars;
use scasp_syntax::{DeepCopy, Terms, VarList, are_ground};
use scasp_trail::Trailed;
use std::alloc::Global;

/// Whether some variable of the terms is in the list.
fn has_one_of(alloc: Global, terms: &Terms, xs: &[u64]) -> Result<bool, Memory>
    ensures { IfOk result (λ has. has ≡ list_any (λ x. among x xs.now) (terms_vars terms.now)) }
{
    let mut vars = VarList::new(alloc);
    push_all_vars(terms, &mut vars)?;
    Ok(vars.as_slice().iter().any(|x| is_among(*x, xs)))
}

/// The literal at the place is general, if it is so.
#[tactic(auto, using(crate::proofs::ZipLemmas::set_changed, crate::proofs::ZipLemmas::changed_length, crate::proofs::EndLemmas::not_general, crate::proofs::HintLemmas::stay_equal))]
fn mark_general(marks: &mut Trailed<Marks>, at: usize, is_general: bool) -> Result<(), Memory>
    requires { at < length marks.old.now }
    ensures now { OnOk result (marks.new.now ≡ changed at (general_if is_general) marks.old.now) }
    ensures before { marks.new.before ≡ marks.old.before }
    ensures len { length marks.new.now ≡ length marks.old.now }
    ensures stay { (es : List ThisEntry) → AllStay (literals_from 0 es marks.old.now) (literals_from 0 es marks.new.now) }
{
    if !is_general {
        return Ok(());
    }
    let old = marks_at(marks.as_slice(), at);
    let new = Marks {
        is_done: old.is_done,
        loops: old.loops,
        is_general: true,
    };
    marks.set(at, new)?;
    Ok(())
}

/// The literal at the place stands as the bindings read it; it is general where it has one of these universal variables. One
/// without variables stays as it is.
#[tactic(auto, using(crate::proofs::EndLemmas::ground_kept, crate::proofs::EndLemmas::one_kept, crate::proofs::HintLemmas::all_stay, crate::proofs::HintLemmas::stay_both, crate::proofs::HintLemmas::stay_entry, crate::proofs::TopLemmas::tops_read))]
fn end_one(
    alloc: Global,
    entries: &mut Trailed<Entry>,
    marks: &mut Trailed<Marks>,
    bound: &Bound,
    universals: &[u64],
    at: usize,
) -> Result<(), Memory>
    requires fit { length marks.old.now ≤ length entries.old.now }
    requires place { at < length marks.old.now }
    ensures now { OnOk result (literals_from 0 entries.new.now marks.new.now ≡ changed at (kept_literal (reading bound.now.now) universals.now) (literals_from 0 entries.old.now marks.old.now)) }
    ensures entries_before { entries.new.before ≡ entries.old.before }
    ensures marks_before { marks.new.before ≡ marks.old.before }
    ensures entries_len { length entries.new.now ≡ length entries.old.now }
    ensures marks_len { length marks.new.now ≡ length marks.old.now }
    ensures stay { AllStay (literals_from 0 entries.old.now marks.old.now) (literals_from 0 entries.new.now marks.new.now) }
    ensures tops { (n : ℕ) → (hs : List ThisHint) → ReadsDown n bound.now.now → AreTops n entries.old.now hs → AreTops n entries.new.now hs }
{
    let entry = entry_at(entries.as_slice(), at);
    if are_ground(alloc, &entry.lit.atom.args)? {
        return Ok(());
    }
    let kept = Entry {
        lit: read_lit(alloc, bound, &entry.lit)?,
        cases: entry.cases.copy(alloc)?,
    };
    let is_general = has_one_of(alloc, &kept.lit.atom.args, universals)?;
    entries.set(at, kept)?;
    mark_general(marks, at, is_general)
}

/// Each literal stands as the bindings read it; it is general where it has one of these universal variables. It goes back over those
/// that have a variable.
#[tactic(auto, using(crate::proofs::EndLemmas::kept_start, crate::proofs::EndLemmas::kept_next, crate::proofs::EndLemmas::all_kept, crate::proofs::HintLemmas::all_stay, crate::proofs::HintLemmas::stay_both, crate::proofs::HintLemmas::hints_stay, crate::proofs::ZipLemmas::literals_length))]
pub(crate) fn end_each(
    alloc: Global,
    lists: &mut Lists,
    bound: &Bound,
    universals: &[u64],
) -> Result<(), Memory>
    requires fit { length lists.old.marks.now ≤ length lists.old.entries.now }
    requires hints { AreHints (literals_in lists.old) lists.old.hints.now }
    ensures now { OnOk result (literals_in lists.new ≡ map (kept_literal (reading bound.now.now) universals.now) (literals_in lists.old)) }
    ensures entries_before { lists.new.entries.before ≡ lists.old.entries.before }
    ensures marks_before { lists.new.marks.before ≡ lists.old.marks.before }
    ensures fit { length lists.new.marks.now ≤ length lists.new.entries.now }
    ensures stay { AllStay (literals_in lists.old) (literals_in lists.new) }
    ensures hints { lists.new.hints ≡ lists.old.hints }
    ensures tops { (n : ℕ) → (hs : List ThisHint) → ReadsDown n bound.now.now → AreTops n lists.old.entries.now hs → AreTops n lists.new.entries.now hs }
    ensures raised { lists.new.raised ≡ lists.old.raised }
{
    let mut left = lists.marks.len();
    'literals: while left > 0 {
        let at = left - 1;
        end_one(
            alloc,
            &mut lists.entries,
            &mut lists.marks,
            bound,
            universals,
            at,
        )?;
        left = varied_before(lists.hints.as_slice(), at);
    }
    Ok(())
}

// ---- which literals have a variable

/// Notes of the literal at the place from where on none before it has a variable.
#[tactic(auto, using(crate::proofs::HintLemmas::noted_varied, crate::proofs::TopLemmas::tops_set))]
fn note_varied(hints: &mut Trailed<Hint>, at: usize, varied: usize) -> Result<(), Memory>
    ensures hints { (ls : List ThisLiteral) → AreHints ls hints.old.now → Within has_no_variable varied at ls → AreHints ls hints.new.now }
    ensures tops { (n : ℕ) → (es : List ThisEntry) → AreTops n es hints.old.now → AreTops n es hints.new.now }
    ensures before { hints.new.before ≡ hints.old.before }
    ensures len { length hints.new.now ≡ length hints.old.now }
{
    match hint_at(hints.as_slice(), at) {
        Some(old) => {
            if varied == old.varied {
                return Ok(());
            }
            let new = Hint {
                key: old.key,
                same: old.same,
                around: old.around,
                undone: old.undone,
                varied,
                top: old.top,
            };
            hints.set(at, new)
        }
        None => Ok(()),
    }
}

/// Notes of each literal that has a variable, and of the last one, which literals before it have none.
#[tactic(auto, using(crate::proofs::HintLemmas::one_ground, crate::proofs::HintLemmas::all_ground))]
pub(crate) fn note_each(alloc: Global, lists: &mut Lists) -> Result<(), Memory>
    requires fit { length lists.old.marks.now ≤ length lists.old.entries.now }
    requires hints { AreHints (literals_in lists.old) lists.old.hints.now }
    ensures entries { lists.new.entries ≡ lists.old.entries }
    ensures marks { lists.new.marks ≡ lists.old.marks }
    ensures hints { AreHints (literals_in lists.old) lists.new.hints.now }
    ensures tops { (n : ℕ) → (es : List ThisEntry) → AreTops n es lists.old.hints.now → AreTops n es lists.new.hints.now }
    ensures raised { lists.new.raised ≡ lists.old.raised }
    ensures before { lists.new.hints.before ≡ lists.old.hints.before }
    ensures len { length lists.new.hints.now ≡ length lists.old.hints.now }
{
    let count = lists.marks.len();
    if count == 0 {
        return Ok(());
    }
    let mut above = count - 1;
    let mut left = varied_before(lists.hints.as_slice(), above);
    'literals: while left > 0 {
        let at = left - 1;
        let next = varied_before(lists.hints.as_slice(), at);
        let entry = entry_at(lists.entries.as_slice(), at);
        if !are_ground(alloc, &entry.lit.atom.args)? {
            note_varied(&mut lists.hints, above, left)?;
            above = at;
        }
        left = next;
    }
    note_varied(&mut lists.hints, above, 0)
}
