//! The instances of what opened.
ghost use Rattle.std.specs.Prelude.{◌≡◌, ℕ, ◌∷◌, ◌++◌, [], OnOk, IfOk, MatchOption, map};
ghost use Rattle.std.specs.List.{flat_map, list_any};
ghost use Rattle.scasp_extend_instances.specs.Within.{entry_overflows, overflows, step_within, ways_within};
ghost use Rattle.scasp_extend_instances.specs.Values.{valued};
ghost use Rattle.scasp_extend_instances.specs.View.{Makes, way_in, way_of, ways_of};
ghost use Rattle.scasp_lines.specs.Ways.{set_all, set_to, shape_step};
ghost use Rattle.scasp_lines_places.specs.Places.View.{all_opened, opened_of};
ghost use Rattle.scasp_syntax.specs.Tm.{items};
ghost use Rattle.scasp_syntax.specs.Values.{Sub};
ghost use Rattle.scasp_syntax.specs.View.{tm_of, tms_of};

use crate::tests::tested;
use crate::values::Way;
use scasp_ground::GroundErr;
use scasp_lines_places::{Chain, Entry};
use scasp_list::{Memory, Sequence};
use scasp_name::NameId;
use scasp_syntax::{Term, Terms};
use std::alloc::Global;

/// Puts the values with each of the terms for the variable at the end.
fn push_ranged<'a>(
    alloc: Global,
    domain: &[Term],
    x: u64,
    way: &Way<'a>,
    made: &mut Sequence<Way<'a>>,
) -> Result<(), Memory>
    ensures { OnOk result (ways_of made.new ≡ ways_of made.old ++ map (λ t. set_to (way_of way.now) x t) (items (tms_of domain.now))) }
{
    for term in domain {
        made.push(way.with(alloc, x, term)?)?;
    }
    Ok(())
}

/// The values with these terms for the variables from `first` on.
fn with_parts<'a>(
    alloc: Global,
    parts: &[Term],
    first: u64,
    way: &Way<'a>,
) -> Result<Way<'a>, Memory>
    ensures { IfOk result (λ made. way_of made ≡ set_all (way_of way.now) first (tms_of parts.now)) }
{
    let mut made = way.share()?;
    let mut left = parts.len();
    while left > 0 {
        left -= 1;
        let x = first.checked_add(left as u64).ok_or(Memory)?;
        made = made.with(alloc, x, &parts[left])?;
    }
    Ok(made)
}

/// The arguments of the term, where it is this name with so many.
fn parts_of(term: &Term, name: NameId, size: u64) -> Option<&[Term]>
    ensures { (k : ℕ) (v : Sub) → MatchOption result (shape_step name k size v (tm_of term.now) ≡ []) (λ parts. shape_step name k size v (tm_of term.now) ≡ set_all v k (tms_of parts.now) ∷ []) }
{
    match term {
        Term::App(other, parts) => {
            if *other == name && parts.len() as u64 == size {
                Some(parts.as_slice())
            } else {
                None
            }
        }
        Term::Var(_) | Term::Num(_) => None,
    }
}

/// The values with those of the parts of the variable's value for the variables from `first` on, where the value has this shape.
fn shaped<'a>(
    alloc: Global,
    way: &Way<'a>,
    of: u64,
    name: NameId,
    first: u64,
    size: u64,
) -> Result<Option<Way<'a>>, Memory>
    ensures { IfOk result (λ made. way_in made ≡ shape_step name first size (way_of way.now) (way_of way.now of)) }
{
    let Some(term) = way.term(of) else {
        return Ok(None);
    };
    match parts_of(term, name, size) {
        Some(parts) => Ok(Some(with_parts(alloc, parts, first, way)?)),
        None => Ok(None),
    }
}

/// Puts the values that the entry makes of these at the end.
fn push_step<'a>(
    alloc: Global,
    domain: &[Term],
    entry: &Entry,
    way: &Way<'a>,
    made: &mut Sequence<Way<'a>>,
) -> Result<(), GroundErr>
    ensures { Makes result (entry_overflows (opened_of entry.now) (way_of way.now)) (λ _. ways_of made.new ≡ ways_of made.old ++ step_within (items (tms_of domain.now)) (opened_of entry.now) (way_of way.now)) }
{
    match entry {
        Entry::Ranges(x) => {
            push_ranged(alloc, domain, *x, way, made)?;
            Ok(())
        }
        Entry::Shaped {
            of,
            name,
            first,
            size,
        } => match shaped(alloc, way, *of, *name, *first, *size)? {
            Some(shaped) => {
                made.push(shaped)?;
                Ok(())
            }
            None => Ok(()),
        },
        Entry::Assumed(con) => {
            if tested(alloc, way, con)? {
                made.push(way.share()?)?;
            }
            Ok(())
        }
    }
}

/// The values that the entry makes of all of these.
fn step_all<'a>(
    alloc: Global,
    domain: &[Term],
    entry: &Entry,
    ways: &Sequence<Way<'a>>,
) -> Result<Sequence<Way<'a>>, GroundErr>
    ensures { Makes result (list_any (entry_overflows (opened_of entry.now)) (ways_of ways.now)) (λ made. ways_of made ≡ flat_map (step_within (items (tms_of domain.now)) (opened_of entry.now)) (ways_of ways.now)) }
{
    let mut made = Sequence::new(alloc);
    for way in ways.as_slice() {
        push_step(alloc, domain, entry, way, &mut made)?;
    }
    Ok(made)
}

/// The values of the free variables alone, as a list.
fn alone<'a>(alloc: Global, free: &'a Terms) -> Result<Sequence<Way<'a>>, Memory>
    ensures { IfOk result (λ made. ways_of made ≡ valued (items free.now) ∷ []) }
{
    let mut made = Sequence::new(alloc);
    made.push(Way::of(free))?;
    Ok(made)
}

/// What opened, the innermost first.
fn entries_in(alloc: Global, opened: &Chain<Entry>) -> Result<Vec<&Entry>, Memory>
    ensures { IfOk result (λ made. map (λ b. opened_of b.now) made.items ≡ all_opened opened.now) }
{
    let mut all = Vec::new(alloc);
    let mut rest = opened;
    while let Some((entry, outer)) = rest.first() {
        all.push(entry)?;
        rest = outer;
    }
    Ok(all)
}

/// The instances of what opened: all values, with terms for the free variables, that the entries make, the outermost first. Overflow
/// where a row on the way is past the range of the numbers at one of them; never TooLarge. It takes memory for all of them.
pub fn ways_of<'a>(
    alloc: Global,
    domain: &Terms,
    opened: &Chain<Entry>,
    free: &'a Terms,
) -> Result<Sequence<Way<'a>>, GroundErr>
    ensures { Makes result (overflows (items domain.now) (all_opened opened.now) (valued (items free.now))) (λ made. ways_of made ≡ ways_within (items domain.now) (all_opened opened.now) (valued (items free.now))) }
{
    let entries = entries_in(alloc, opened)?;
    let mut made = alone(alloc, free)?;
    let mut left = entries.len();
    while left > 0 {
        left -= 1;
        made = step_all(alloc, domain.as_slice(), entries[left], &made)?;
    }
    Ok(made)
}
