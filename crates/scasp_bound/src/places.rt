//! Lists with gaps, and what is noted of variables.
ghost use Rattle.std.specs.Prelude.{◌≡◌, ◌<◌, ℕ, None, Some, true, nat_eq, length, drop, option_copied, option_map, MatchOption, OnOk, ⊤};
ghost use Rattle.scasp_bound.specs.Bounds.{among};
ghost use Rattle.scasp_bound.specs.Inside.Gaps.{emptied, first_from, gaps, is_of, item};
ghost use Rattle.scasp_bound.specs.Inside.Places.{IsPlace, IsRight, left_out, noted};

use scasp_list::Memory;
use scasp_trail::Trailed;
use scasp_unify::Binding;

/// Where the first binding of a variable stands.
#[derive(Clone, Copy)]
pub(crate) struct Place {
    pub(crate) at: usize,
    /// It is the only one of the variable.
    pub(crate) is_only: bool,
}

/// What is noted of the variable.
#[tactic(auto, using(crate::proofs::BoundLemmas::past))]
pub(crate) fn place_of(places: &[Option<Place>], x: u64) -> Option<Place>
    ensures { result ≡ item places.now x }
{
    let at = x as usize;
    if at < places.len() { places[at] } else { None }
}

/// The binding that stands at the place.
#[tactic(auto, using(crate::proofs::BoundLemmas::past))]
pub(crate) fn binding_at(items: &[Option<Binding>], at: usize) -> Option<&Binding>
    ensures binding { option_copied result ≡ item items.now at }
    ensures place { MatchOption result ⊤ (λ b. at < length items.now) }
{
    if at < items.len() {
        items[at].as_ref()
    } else {
        None
    }
}

/// Whether it is a binding of the variable.
fn is_of(item: &Option<Binding>, x: u64) -> bool
    ensures { result ≡ is_of x item.now }
{
    match item {
        Some(binding) => binding.x == x,
        None => false,
    }
}

/// The place of the first binding of the variable, from a place on, by a walk.
pub(crate) fn walk_from(items: &[Option<Binding>], from: usize, x: u64) -> Option<usize>
    ensures { result ≡ first_from from x (drop from items.now) }
{
    let mut at = from;
    while at < items.len() {
        if is_of(&items[at], x) {
            return Some(at);
        }
        at += 1;
    }
    None
}

/// Makes room for a note on the variable.
#[tactic(auto, using(crate::proofs::BoundLemmas::longer))]
fn make_room(places: &mut Trailed<Option<Place>>, at: usize) -> Result<(), Memory>
    ensures room { OnOk result (at < length places.new.now) }
    ensures now { OnOk result ((y : ℕ) → item places.new.now y ≡ item places.old.now y) }
    ensures before { places.new.before ≡ places.old.before }
{
    while places.len() <= at {
        places.push(None)?;
    }
    Ok(())
}

/// What is to be noted of a variable of which this was, where one more binding of it stands behind the others.
fn one_more(place: Option<Place>, at: usize) -> Place
    ensures { Some result ≡ noted true at place }
{
    match place {
        Some(first) => Place {
            at: first.at,
            is_only: false,
        },
        None => Place { at, is_only: true },
    }
}

/// Notes that a binding of the variable stands at the place, behind the others.
pub(crate) fn note(places: &mut Trailed<Option<Place>>, x: u64, at: usize) -> Result<(), Memory>
    ensures now { OnOk result ((y : ℕ) → item places.new.now y ≡ noted (nat_eq x y) at (item places.old.now y)) }
    ensures before { places.new.before ≡ places.old.before }
{
    let number = x as usize;
    make_room(places, number)?;
    let place = one_more(place_of(places.as_slice(), x), at);
    places.set(number, Some(place))?;
    Ok(())
}

/// Takes away what is noted of the variable.
#[tactic(auto, using(crate::proofs::BoundLemmas::note_gone, crate::proofs::BoundLemmas::none_there))]
pub(crate) fn forget(places: &mut Trailed<Option<Place>>, x: u64) -> Result<(), Memory>
    ensures now { OnOk result ((y : ℕ) → item places.new.now y ≡ left_out (nat_eq x y) (item places.old.now y)) }
    ensures before { places.new.before ≡ places.old.before }
{
    let at = x as usize;
    if at < places.len() {
        places.set(at, None)?;
    }
    Ok(())
}

/// Whether a binding of the variable stands at the place.
fn is_of_at(items: &[Option<Binding>], at: usize, x: u64) -> bool
    ensures { result ≡ is_of x (item items.now at) }
{
    match binding_at(items, at) {
        Some(binding) => binding.x == x,
        None => false,
    }
}

/// Takes out the binding of this place, if it is of the variable.
#[tactic(auto, using(crate::proofs::BoundLemmas::emptied_put, crate::proofs::BoundLemmas::emptied_not))]
fn take_out_at(list: &mut Trailed<Option<Binding>>, at: usize, x: u64) -> Result<(), Memory>
    requires { at < length list.old.now }
    ensures now { OnOk result (list.new.now ≡ emptied at x list.old.now) }
    ensures before { list.new.before ≡ list.old.before }
{
    if is_of_at(list.as_slice(), at, x) {
        list.set(at, None)?;
    }
    Ok(())
}

/// Takes the bindings of the variable out, by a walk.
#[tactic(auto, using(crate::proofs::BoundLemmas::gap_more, crate::proofs::BoundLemmas::gap_all, crate::proofs::BoundLemmas::emptied_length))]
fn take_out_all(list: &mut Trailed<Option<Binding>>, x: u64) -> Result<(), Memory>
    ensures now { OnOk result (list.new.now ≡ gaps x list.old.now) }
    ensures before { list.new.before ≡ list.old.before }
{
    let mut at = 0;
    while at < list.len() {
        take_out_at(list, at, x)?;
        at += 1;
    }
    Ok(())
}

/// Takes the bindings of the variable out, of which this is noted.
#[tactic(auto, using(crate::proofs::PlaceLemmas::none_gaps, crate::proofs::PlaceLemmas::within))]
pub(crate) fn take_out_noted(
    list: &mut Trailed<Option<Binding>>,
    place: Option<Place>,
    x: u64,
) -> Result<(), Memory>
    requires { IsPlace x place list.old.now }
    ensures now { OnOk result (list.new.now ≡ gaps x list.old.now) }
    ensures before { list.new.before ≡ list.old.before }
{
    let Some(first) = place else {
        return Ok(());
    };
    if !first.is_only {
        take_out_all(list, x)?;
        return Ok(());
    }
    list.set(first.at, None)?;
    Ok(())
}

/// Takes the bindings of the variable out, by the index where it is right.
pub(crate) fn take_out_of(
    list: &mut Trailed<Option<Binding>>,
    places: &[Option<Place>],
    is_whole: bool,
    x: u64,
) -> Result<(), Memory>
    requires { IsRight is_whole list.old.now places.now }
    ensures now { OnOk result (list.new.now ≡ gaps x list.old.now) }
    ensures before { list.new.before ≡ list.old.before }
{
    if is_whole {
        take_out_noted(list, place_of(places, x), x)?;
        return Ok(());
    }
    take_out_all(list, x)?;
    Ok(())
}

/// The place of the first binding of the variable, by the index where it is right.
#[tactic(auto, using(crate::proofs::PlaceLemmas::first_is))]
pub(crate) fn first_of(
    items: &[Option<Binding>],
    places: &[Option<Place>],
    is_whole: bool,
    x: u64,
) -> Option<usize>
    requires { IsRight is_whole items.now places.now }
    ensures { result ≡ first_from 0 x items.now }
{
    if is_whole {
        first_noted(place_of(places, x))
    } else {
        walk_from(items, 0, x)
    }
}

fn first_noted(place: Option<Place>) -> Option<usize>
    ensures { result ≡ option_map (λ p. p.at) place }
{
    match place {
        Some(first) => Some(first.at),
        None => None,
    }
}

/// The place of the first binding of the variable from a place on, by the index where it has one.
#[tactic(auto, using(crate::proofs::ReadLemmas::none_after, crate::proofs::ReadLemmas::some_after))]
pub(crate) fn first_after(
    items: &[Option<Binding>],
    places: &[Option<Place>],
    is_whole: bool,
    from: usize,
    x: u64,
) -> Option<usize>
    requires { IsRight is_whole items.now places.now }
    ensures { result ≡ first_from from x (drop from items.now) }
{
    match first_of(items, places, is_whole, x) {
        Some(at) => {
            if at < from {
                walk_from(items, from, x)
            } else {
                Some(at)
            }
        }
        None => None,
    }
}

/// Whether the variable is in the list.
pub(crate) fn is_among(x: u64, xs: &[u64]) -> bool
    ensures { result ≡ among x xs.now }
{
    let mut at = 0;
    while at < xs.len() {
        if x == xs[at] {
            return true;
        }
        at += 1;
    }
    false
}
