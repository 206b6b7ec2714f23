//! The context of a place.
ghost use Rattle.std.specs.Prelude.{◌≡◌, ◌≤◌, ◌++◌, [], IfOk, OnOk, length, map, option_to_list, reverse, take};
ghost use Rattle.scasp_lines.specs.Contexts.{constraints_of, context};
ghost use Rattle.scasp_lines_places.specs.Places.View.{all_opened, opened_of};
ghost use Rattle.scasp_lines_places.specs.Dues.Ends.{EndsWith, last_of};
ghost use Rattle.scasp_lines_places.specs.Dues.Seen.{seen};

use crate::places::{Chain, Entry, new_parts};
use scasp_list::Memory;
use scasp_syntax::{Con, Cons, DeepCopy, Term};
use std::alloc::Global;

/// The constraint that an entry brings, if it brings one.
fn constraint_of(alloc: Global, entry: &Entry) -> Result<Option<Con>, Memory>
    ensures { IfOk result (λ made. option_to_list made ≡ constraints_of (opened_of entry.now)) }
{
    match entry {
        Entry::Ranges(_) => Ok(None),
        Entry::Shaped {
            of,
            name,
            first,
            size,
        } => {
            let parts = new_parts(alloc, *first, *size)?;
            Ok(Some(Con::Eq(Term::Var(*of), Term::App(*name, parts))))
        }
        Entry::Assumed(constraint) => Ok(Some(constraint.copy(alloc)?)),
    }
}

/// Puts the constraint that an entry brings at the end.
fn push_constraint(alloc: Global, entry: &Entry, list: &mut Cons) -> Result<(), Memory>
    ensures { OnOk result (list.new ≡ list.old ++ constraints_of (opened_of entry.now)) }
{
    match constraint_of(alloc, entry)? {
        None => Ok(()),
        Some(constraint) => list.push(constraint),
    }
}

/// The entries, the innermost first.
fn entries(alloc: Global, opened: &Chain<Entry>) -> Result<Vec<&Entry>, Memory>
    ensures { IfOk result (λ made. map seen made.items ≡ all_opened opened.now) }
{
    opened.items(alloc)
}

/// The given constraints, and then those of what opened, the outermost first. It takes time and memory linear in both.
pub fn context(alloc: Global, given: &[Con], opened: &Chain<Entry>) -> Result<Cons, Memory>
    ensures { IfOk result (λ made. made ≡ context given.now (all_opened opened.now)) }
{
    let mut list = Cons::new(alloc);
    for constraint in given {
        list.push(constraint.copy(alloc)?)?;
    }
    let mut left = entries(alloc, opened)?;
    while let Some(entry) = left.pop() {
        push_constraint(alloc, entry, &mut list)?;
    }
    Ok(list)
}

/// How many constraints an entry brings.
fn count_of(entry: &Entry) -> usize
    ensures { result ≡ length (constraints_of (opened_of entry.now)) }
{
    match entry {
        Entry::Ranges(_) => 0,
        Entry::Shaped { .. } | Entry::Assumed(_) => 1,
    }
}

/// How many constraints opened. It takes no memory.
pub fn constraint_count(opened: &Chain<Entry>) -> Result<usize, Memory>
    ensures { IfOk result (λ count. count ≡ length (context [] (all_opened opened.now))) }
{
    let mut count = 0usize;
    let mut rest = opened;
    while let Some((entry, outer)) = rest.first() {
        count = count.checked_add(count_of(entry)).ok_or(Memory)?;
        rest = outer;
    }
    Ok(count)
}

/// The last constraints that opened, so many, the last of them first.
fn last_constraints(alloc: Global, opened: &Chain<Entry>, count: usize) -> Result<Vec<Con>, Memory>
    ensures { IfOk result (λ made. EndsWith count (reverse made.items) (context [] (all_opened opened.now))) }
{
    let mut found = Vec::new(alloc);
    let mut rest = opened;
    while found.len() < count {
        let Some((entry, outer)) = rest.first() else {
            return Ok(found);
        };
        if let Some(constraint) = constraint_of(alloc, entry)? {
            found.push(constraint)?;
        }
        rest = outer;
    }
    Ok(found)
}

/// Changes the list of one place to that of another: the first `kept` constraints stay, and the last `more` of those that
/// opened come behind them. It takes time and memory linear in `more` and in what leaves the list.
pub fn change_context(
    alloc: Global,
    list: &mut Vec<Con>,
    kept: usize,
    more: usize,
    opened: &Chain<Entry>,
) -> Result<(), Memory>
    ensures { OnOk result (more ≤ length (context [] (all_opened opened.now)) → list.new.items ≡ take kept list.old.items ++ last_of more (context [] (all_opened opened.now))) }
{
    let mut behind = last_constraints(alloc, opened, more)?;
    behind.reverse();
    list.truncate(kept);
    list.append(&mut behind)?;
    Ok(())
}
