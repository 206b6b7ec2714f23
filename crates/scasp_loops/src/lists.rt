//! The lists in which literals are kept.
ghost use Rattle.std.specs.Prelude.{◌≡◌, ◌≤◌, ◌<◌, ◌+◌, ℕ, [], ◌∷◌, ◌++◌, List, length, slice_get, Some, IfOk, OnOk, OnErr};
ghost use Rattle.scasp_bound.specs.Bounds.{ReadsDown};
ghost use Rattle.scasp_loops.specs.Held.{literal_of};
ghost use Rattle.scasp_loops.specs.Inside.Hinted.{AreHinted, AreHints, IsHint, Within, has_no_variable, is_past, lit_key};
ghost use Rattle.scasp_loops.specs.Inside.Kept.{AreLeft, AreMarked, SameMarks, SameNow, literals_in};
ghost use Rattle.scasp_loops.specs.Inside.Topped.{AreTops, IsTop, StartsBefore};
ghost use Rattle.scasp_loops.specs.Inside.Zipped.{StandsAt};
ghost use Rattle.scasp_loops.specs.declared.entry.Marks.{Marks as TheseMarks};

use crate::entry::{Entry, Marks};
use crate::hints::{Hint, around_before, key_of, note_latest, same_among, varied_before};
use crate::innermost::{entry_at, marks_at};
use scasp_bound::Bound;
use scasp_list::Memory;
use scasp_syntax::{Lit, Term, Terms, are_ground};
use scasp_trail::Trailed;
use std::alloc::Global;

/// Literals in order, with their marks, and what is known of those before each.
#[derive(Drop)]
pub(crate) struct Lists {
    pub(crate) entries: Trailed<Entry>,
    pub(crate) marks: Trailed<Marks>,
    pub(crate) hints: Trailed<Hint>,
    /// Beyond this variable what the ends of cases have read anew starts with no later variable than before. It never falls.
    pub(crate) raised: u64,
}

impl Lists {
    /// Marks each list as it is now.
    pub(crate) fn mark(&mut self) -> Result<(), Memory>
        ensures now { SameNow self.old self.new }
        ensures marked { OnOk result (AreMarked self.old self.new) }
        ensures unchanged { OnErr result (SameMarks self.old self.new) }
    {
        self.entries.mark()?;
        if self.hints.mark().is_err() {
            self.entries.leave();
            return Err(Memory);
        }
        if self.marks.mark().is_err() {
            self.entries.leave();
            self.hints.leave();
            return Err(Memory);
        }
        Ok(())
    }

    /// Makes each list again what it was at its latest mark, which is taken away.
    pub(crate) fn leave(&mut self)
        ensures { AreLeft self.old self.new }
    {
        self.entries.leave();
        self.marks.leave();
        self.hints.leave();
    }

    /// Before what these bindings read is put in the place of literals.
    #[tactic(auto, using(crate::proofs::TopLemmas::down_beyond))]
    pub(crate) fn raise(&mut self, bound: &Bound) -> Result<(), Memory>
        ensures raised { self.old.raised ≤ self.new.raised }
        ensures down { OnOk result (ReadsDown self.new.raised bound.now.now) }
        ensures entries { self.new.entries ≡ self.old.entries }
        ensures marks { self.new.marks ≡ self.old.marks }
        ensures hints { self.new.hints ≡ self.old.hints }
    {
        let Some(rise) = bound.rise() else {
            return Err(Memory);
        };
        self.raised = later(self.raised, rise);
        Ok(())
    }
}

/// The later of two variables.
fn later(x: u64, y: u64) -> u64
    ensures first { x ≤ result }
    ensures second { y ≤ result }
{
    if x < y { y } else { x }
}

// ---- one more literal

/// The variable with which the terms start, or 0.
#[tactic(auto, using(crate::proofs::TopLemmas::starts_none, crate::proofs::TopLemmas::starts_variable, crate::proofs::TopLemmas::starts_number, crate::proofs::TopLemmas::starts_name))]
fn start_of(terms: &Terms) -> u64
    ensures { (r : ℕ) → result < r → StartsBefore r terms.now }
{
    match terms.as_slice().split_first() {
        None => 0,
        Some((first, _)) => match first {
            Term::Var(x) => *x,
            Term::Num(_) | Term::App(..) => 0,
        },
    }
}

/// The hint at the place.
fn hint_of(hints: &[Hint], at: usize) -> Hint
    requires { at < length hints.now }
    ensures { slice_get hints.now at ≡ Some result }
{
    hints[at]
}

/// What may be the top of the next literal's hint.
#[tactic(auto, using(crate::proofs::TopLemmas::none_top, crate::proofs::TopLemmas::more_top))]
fn top_among(lists: &Lists) -> u64
    requires fit { length lists.now.marks.now ≤ length lists.now.entries.now }
    requires enough { length lists.now.marks.now ≤ length lists.now.hints.now }
    ensures { IsTop result (length lists.now.marks.now) lists.now.entries.now lists.now.hints.now }
{
    let count = lists.marks.len();
    if count == 0 {
        return 0;
    }
    let last = count - 1;
    let hint = hint_of(lists.hints.as_slice(), last);
    let entry = entry_at(lists.entries.as_slice(), last);
    later(hint.top, start_of(&entry.lit.atom.args))
}

/// Puts the item at the place, which is one of the list or the next one.
#[tactic(auto, using(crate::proofs::ZipLemmas::stands_set, crate::proofs::ZipLemmas::stands_pushed, crate::proofs::HintLemmas::set_length))]
fn put<T: Drop>(list: &mut Trailed<T>, at: usize, item: T) -> Result<(), Memory>
    requires { at ≤ length list.old.now }
    ensures now { OnOk result (StandsAt at item list.old.now list.new.now) }
    ensures few { OnOk result ((n : ℕ) → length list.old.now ≤ n → at + 1 ≤ n → length list.new.now ≤ n) }
    ensures before { list.new.before ≡ list.old.before }
    ensures unchanged { OnErr result (list.new ≡ list.old) }
{
    if at < list.len() {
        list.set(at, item)
    } else {
        list.push(item)
    }
}

/// A place from which on no literal has a variable.
#[tactic(auto, using(crate::proofs::HintLemmas::varied_more, crate::proofs::HintLemmas::none_within, crate::proofs::HintLemmas::nothing_within))]
fn varied_among(alloc: Global, lists: &Lists) -> Result<usize, Memory>
    requires fit { length lists.now.marks.now ≤ length lists.now.entries.now }
    requires hints { AreHints (literals_in lists.now) lists.now.hints.now }
    ensures { IfOk result (λ place. Within has_no_variable place (length lists.now.marks.now) (literals_in lists.now)) }
{
    let count = lists.marks.len();
    if count == 0 {
        return Ok(0);
    }
    let last = count - 1;
    let entry = entry_at(lists.entries.as_slice(), last);
    if are_ground(alloc, &entry.lit.atom.args)? {
        Ok(varied_before(lists.hints.as_slice(), last))
    } else {
        Ok(count)
    }
}

/// A place from which on no open literal has the key.
#[tactic(auto, using(crate::proofs::HintLemmas::past_start, crate::proofs::HintLemmas::past_done, crate::proofs::HintLemmas::from_first, crate::proofs::ZipLemmas::literals_length))]
pub(crate) fn open_same(lists: &Lists, latest: &[usize], key: usize) -> usize
    requires fit { length lists.now.marks.now ≤ length lists.now.entries.now }
    requires hinted { AreHinted (literals_in lists.now) lists.now.hints.now latest.now }
    ensures place { result ≤ length lists.now.marks.now }
    ensures others { Within (is_past key) result (length lists.now.marks.now) (literals_in lists.now) }
{
    let marks = lists.marks.as_slice();
    let hints = lists.hints.as_slice();
    let mut left = same_among(latest, key, marks.len());
    'literals: while left > 0 {
        let at = left - 1;
        if !marks_at(marks, at).is_done {
            return left;
        }
        left = around_before(hints, key, at);
    }
    0
}

/// What is known of the literals before one that comes next.
#[tactic(auto, using(crate::proofs::HintLemmas::known_next, crate::proofs::HintLemmas::enough_hints))]
pub(crate) fn next_hint(
    alloc: Global,
    lists: &Lists,
    latest: &[usize],
    lit: &Lit,
) -> Result<Hint, Memory>
    requires fit { length lists.now.marks.now ≤ length lists.now.entries.now }
    requires hinted { AreHinted (literals_in lists.now) lists.now.hints.now latest.now }
    ensures known { IfOk result (λ hint. (hint.key ≡ lit_key lit.now) × IsHint (literals_in lists.now) (length lists.now.marks.now) hint) }
    ensures top { IfOk result (λ hint. IsTop hint.top (length lists.now.marks.now) lists.now.entries.now lists.now.hints.now) }
{
    let count = lists.marks.len();
    let key = key_of(lit.positive, lit.atom.name);
    let same = same_among(latest, key, count);
    let around = open_same(lists, latest, key);
    let varied = varied_among(alloc, lists)?;
    let top = top_among(lists);
    Ok(Hint {
        key,
        same,
        around,
        undone: count,
        varied,
        top,
    })
}

/// Puts the entry and the hint of one more literal, of which the marks are still to come.
#[tactic(auto, using(crate::proofs::HintLemmas::hinted_stood, crate::proofs::HintLemmas::hinted_noted, crate::proofs::HintLemmas::hinted_unnoted, crate::proofs::HintLemmas::hinted_more, crate::proofs::ZipLemmas::none_more, crate::proofs::ZipLemmas::literals_length, crate::proofs::ZipLemmas::some_within))]
pub(crate) fn prepare(
    lists: &mut Lists,
    latest: &mut Trailed<usize>,
    entry: Entry,
    hint: Hint,
) -> Result<(), Memory>
    requires fit { length lists.old.marks.now ≤ length lists.old.entries.now }
    requires hinted { AreHinted (literals_in lists.old) lists.old.hints.now latest.old.now }
    requires key { hint.key ≡ lit_key entry.lit }
    requires hint { IsHint (literals_in lists.old) (length lists.old.marks.now) hint }
    requires top { IsTop hint.top (length lists.old.marks.now) lists.old.entries.now lists.old.hints.now }
    ensures stands { OnOk result (StandsAt (length lists.old.marks.now) entry lists.old.entries.now lists.new.entries.now) }
    ensures more { OnOk result ((m : TheseMarks) → AreHinted (literals_in lists.old ++ literal_of (length lists.old.marks.now) entry m ∷ []) lists.new.hints.now latest.new.now) }
    ensures fit { length lists.new.marks.now ≤ length lists.new.entries.now }
    ensures same { literals_in lists.new ≡ literals_in lists.old }
    ensures hinted { AreHinted (literals_in lists.old) lists.new.hints.now latest.new.now }
    ensures tops { (n : ℕ) → AreTops n lists.old.entries.now lists.old.hints.now → AreTops n lists.new.entries.now lists.new.hints.now }
    ensures raised { lists.new.raised ≡ lists.old.raised }
    ensures marks { lists.new.marks ≡ lists.old.marks }
    ensures entries_before { lists.new.entries.before ≡ lists.old.entries.before }
    ensures hints_before { lists.new.hints.before ≡ lists.old.hints.before }
    ensures latest_before { latest.new.before ≡ latest.old.before }
{
    let at = lists.marks.len();
    put(&mut lists.entries, at, entry)?;
    put(&mut lists.hints, at, hint)?;
    note_latest(latest, hint.key, at + 1)?;
    Ok(())
}
