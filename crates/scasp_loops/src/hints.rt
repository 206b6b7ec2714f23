//! What is known of the literals before each one, so that a walk can leave them out.
ghost use Rattle.std.specs.Prelude.{◌≡◌, ◌≤◌, ◌<◌, ◌+◌, ◌*◌, ◌%◌, ℕ, List, length, if◌then◌else◌, nat_eq, option_copied, slice_get, true, OnOk, OnErr};
ghost use Rattle.scasp_loops.specs.Inside.Hinted.{AreHints, AreLatest, Within, has_no_variable, is_done, is_other, is_past, key_of, place_in};
ghost use Rattle.scasp_loops.specs.Inside.Topped.{AllStartBefore, AreTops};
ghost use Rattle.scasp_loops.specs.declared.entry.Entry.{Entry as ThisEntry};
ghost use Rattle.scasp_search_rules.specs.declared.states.state.Literal.{Literal as ThisLiteral};

use scasp_list::Memory;
use scasp_name::NameId;
use scasp_trail::Trailed;

/// What is known of the literals before one.
#[derive(Clone, Copy)]
pub(crate) struct Hint {
    /// The key of its sign and name.
    pub(crate) key: usize,
    /// From this place on none before it has this key.
    pub(crate) same: usize,
    /// From this place on none before it that is open has this key.
    pub(crate) around: usize,
    /// From this place on all before it are done.
    pub(crate) undone: usize,
    /// From this place on none before it has a variable.
    pub(crate) varied: usize,
    /// None before it starts with a later variable, but for those that ends of cases have read anew.
    pub(crate) top: u64,
}

/// How many keys of names there are.
const NAMES: u64 = 512;

/// The key of a sign and a name. Those of different keys are different.
pub(crate) fn key_of(positive: bool, name: NameId) -> usize
    ensures { result ≡ key_of positive name }
{
    let key = (name.place() % NAMES) as usize * 2;
    if positive { key + 1 } else { key }
}

/// The hint at the place.
#[tactic(auto, using(crate::proofs::HintLemmas::past_end))]
pub(crate) fn hint_at(hints: &[Hint], at: usize) -> Option<Hint>
    ensures { result ≡ slice_get hints.now at }
{
    if at < hints.len() {
        Some(hints[at])
    } else {
        None
    }
}

// ---- places from which on the literals need no look

/// A place from which on no literal before `at` has this key.
#[tactic(auto, using(crate::proofs::HintLemmas::same_known, crate::proofs::HintLemmas::none_within))]
pub(crate) fn same_before(hints: &[Hint], key: usize, at: usize) -> usize
    ensures place { result ≤ at }
    ensures others { (ls : List ThisLiteral) → AreHints ls hints.now → Within (is_other key) result at ls }
{
    match hint_at(hints, at) {
        Some(hint) => {
            if hint.key == key && hint.same < at {
                hint.same
            } else {
                at
            }
        }
        None => at,
    }
}

/// A place from which on no open literal before `at` has this key.
#[tactic(auto, using(crate::proofs::HintLemmas::around_known, crate::proofs::HintLemmas::none_within))]
pub(crate) fn around_before(hints: &[Hint], key: usize, at: usize) -> usize
    ensures place { result ≤ at }
    ensures others { (ls : List ThisLiteral) → AreHints ls hints.now → Within (is_past key) result at ls }
{
    match hint_at(hints, at) {
        Some(hint) => {
            if hint.key == key && hint.around < at {
                hint.around
            } else {
                at
            }
        }
        None => at,
    }
}

/// A place from which on all literals before `at` are done.
#[tactic(auto, using(crate::proofs::HintLemmas::undone_known, crate::proofs::HintLemmas::none_within))]
pub(crate) fn undone_before(hints: &[Hint], at: usize) -> usize
    ensures place { result ≤ at }
    ensures others { (ls : List ThisLiteral) → AreHints ls hints.now → Within is_done result at ls }
{
    match hint_at(hints, at) {
        Some(hint) => { if hint.undone < at { hint.undone } else { at } }
        None => at,
    }
}

/// A place from which on no literal before `at` has a variable.
#[tactic(auto, using(crate::proofs::HintLemmas::varied_known, crate::proofs::HintLemmas::none_within))]
pub(crate) fn varied_before(hints: &[Hint], at: usize) -> usize
    ensures place { result ≤ at }
    ensures others { (ls : List ThisLiteral) → AreHints ls hints.now → Within has_no_variable result at ls }
{
    match hint_at(hints, at) {
        Some(hint) => { if hint.varied < at { hint.varied } else { at } }
        None => at,
    }
}

/// Whether it is known that no literal before `at` starts with a variable from `first` on, where `first` is beyond what ends of
/// cases have read.
#[tactic(auto, using(crate::proofs::TopLemmas::top_known))]
pub(crate) fn all_start_before(hints: &[Hint], first: u64, at: usize) -> bool
    ensures { result ≡ true → (n : ℕ) → (es : List ThisEntry) → AreTops n es hints.now → n < first → AllStartBefore first at es }
{
    match hint_at(hints, at) {
        Some(hint) => hint.top < first,
        None => false,
    }
}

// ---- the latest literal of each key

/// The place that is noted of the key, or 0.
#[tactic(auto, using(crate::proofs::HintLemmas::place_past))]
fn place_at(latest: &[usize], key: usize) -> usize
    ensures { result ≡ place_in latest.now key }
{
    if key < latest.len() { latest[key] } else { 0 }
}

/// A place from which on none of so many literals has this key.
#[tactic(auto, using(crate::proofs::HintLemmas::latest_known, crate::proofs::HintLemmas::none_within))]
pub(crate) fn same_among(latest: &[usize], key: usize, count: usize) -> usize
    ensures place { result ≤ count }
    ensures others { (ls : List ThisLiteral) → AreLatest ls latest.now → length ls ≡ count → Within (is_other key) result count ls }
{
    let place = place_at(latest, key);
    if place < count { place } else { count }
}

/// Makes room for a note on the key.
#[tactic(auto, using(crate::proofs::HintLemmas::longer))]
fn make_room(latest: &mut Trailed<usize>, key: usize) -> Result<(), Memory>
    ensures room { OnOk result (key < length latest.new.now) }
    ensures now { (k : ℕ) → place_in latest.new.now k ≡ place_in latest.old.now k }
    ensures before { latest.new.before ≡ latest.old.before }
{
    'keys: while latest.len() <= key {
        latest.push(0)?;
    }
    Ok(())
}

/// Notes of the key that from this place on no literal has it.
#[tactic(auto, using(crate::proofs::HintLemmas::noted))]
pub(crate) fn note_latest(
    latest: &mut Trailed<usize>,
    key: usize,
    place: usize,
) -> Result<(), Memory>
    ensures now { OnOk result ((k : ℕ) → place_in latest.new.now k ≡ (if nat_eq key k then place else place_in latest.old.now k)) }
    ensures unchanged { OnErr result ((k : ℕ) → place_in latest.new.now k ≡ place_in latest.old.now k) }
    ensures before { latest.new.before ≡ latest.old.before }
{
    make_room(latest, key)?;
    latest.set(key, place)?;
    Ok(())
}
