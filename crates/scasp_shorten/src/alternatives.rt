//! Lists of which one holds, without those that others contain.
ghost use Rattle.std.specs.Prelude.{◌≡◌, ◌∷◌, ◌++◌, [], IfOk, OnOk, flat_map, map};
ghost use Rattle.std.specs.List.{list_any};
ghost use Rattle.scasp_hint.specs.AskedRows.{RowsNormal};
ghost use Rattle.scasp_list.specs.Each.{Each};
ghost use Rattle.scasp_shorten.specs.Shortest.{is_closed, is_empty, is_within_one, left_open, shortest, shortest_list, single, tells_early, uncontained};
ghost use Rattle.scasp_shorten.specs.Told.{tells_one};
ghost use Rattle.scasp_syntax.specs.Values.{Valuation};

use crate::evident::is_evident;
use crate::following::follows;
use crate::ordering::in_order;
use crate::shortening::{thinned, without_evident, without_tests};
use scasp_list::Memory;
use scasp_syntax::{Con, ConLists, Cons, DeepCopy};
use std::alloc::Global;

/// The list in its shortest form.
fn shortest_list(alloc: Global, list: &[Con]) -> Result<Cons, Memory>
    ensures { IfOk result (λ made. made ≡ shortest_list list.now) }
{
    let open = without_evident(alloc, list)?;
    let short = thinned(alloc, open.as_slice())?;
    let told = without_tests(alloc, short.as_slice())?;
    in_order(alloc, told.as_slice())
}

/// Each of the lists in its shortest form.
fn shortest_lists(alloc: Global, lists: &[Cons]) -> Result<ConLists, Memory>
    ensures { IfOk result (λ made. made ≡ map shortest_list lists.now) }
{
    let mut made = ConLists::new(alloc);
    for list in lists {
        made.push(shortest_list(alloc, list.as_slice())?)?;
    }
    Ok(made)
}

/// The constraints of the second list that are not evident from the first.
fn left_open(alloc: Global, list: &[Con], other: &[Con]) -> Result<Cons, Memory>
    ensures { IfOk result (λ made. made ≡ left_open list.now other.now) }
{
    let mut made = Cons::new(alloc);
    for constraint in other {
        if !is_evident(alloc, list, constraint)? {
            made.push(constraint.copy(alloc)?)?;
        }
    }
    Ok(made)
}

/// Puts what of each of the others is open behind the lists.
fn push_open(
    alloc: Global,
    opens: &mut ConLists,
    list: &[Con],
    others: &[Cons],
) -> Result<(), Memory>
    ensures { OnOk result (opens.new ≡ opens.old ++ map (left_open list.now) others.now) }
{
    for other in others {
        opens.push(left_open(alloc, list, other.as_slice())?)?;
    }
    Ok(())
}

/// Whether one of the lists is empty.
fn has_empty(opens: &[Cons]) -> bool
    ensures { result ≡ list_any is_empty opens.now }
{
    opens.iter().any(|open| is_empty(open.as_slice()))
}

fn is_empty(list: &[Con]) -> bool
    ensures { result ≡ is_empty list.now }
{
    match list {
        [] => true,
        [_, ..] => false,
    }
}

/// Puts the constraint that is all of the list behind the others.
fn push_single(alloc: Global, made: &mut Cons, list: &[Con]) -> Result<(), Memory>
    ensures { OnOk result (made.new ≡ made.old ++ single list.now) }
{
    match list {
        [constraint] => {
            made.push(constraint.copy(alloc)?)?;
            Ok(())
        }
        [] | [_, _, ..] => Ok(()),
    }
}

/// The constraints that are all of their lists.
fn singles(alloc: Global, opens: &[Cons]) -> Result<Cons, Memory>
    ensures { IfOk result (λ made. made ≡ flat_map single opens.now) }
{
    let mut made = Cons::new(alloc);
    for open in opens {
        push_single(alloc, &mut made, open.as_slice())?;
    }
    Ok(made)
}

/// Whether the list tells one of the first two constraints, as is asked.
fn tells_early(alloc: Global, list: &[Con], constraints: &[Con]) -> Result<bool, Memory>
    ensures { IfOk result (λ is. is ≡ tells_early list.now constraints.now) }
{
    match constraints {
        [] => Ok(false),
        [one] => follows(alloc, list, one),
        [one, other, ..] => Ok(follows(alloc, list, one)? || follows(alloc, list, other)?),
    }
}

/// Whether of one of these lists nothing is open, or of one of the first two of which one constraint is open a question
/// shows this one.
fn is_closed(alloc: Global, list: &[Con], opens: &[Cons]) -> Result<bool, Memory>
    ensures { IfOk result (λ is. is ≡ is_closed list.now opens.now) }
{
    if has_empty(opens) {
        return Ok(true);
    }
    let single = singles(alloc, opens)?;
    tells_early(alloc, list, single.as_slice())
}

/// Whether the list is within one of those before it, or of those behind it.
fn is_needless(
    alloc: Global,
    before: &[Cons],
    behind: &[Cons],
    list: &[Con],
) -> Result<bool, Memory>
    ensures { IfOk result (λ is. is ≡ is_within_one list.now (before.now ++ behind.now)) }
{
    let mut opens = ConLists::new(alloc);
    push_open(alloc, &mut opens, list, before)?;
    push_open(alloc, &mut opens, list, behind)?;
    is_closed(alloc, list, opens.as_slice())
}

/// The lists that stay: none that is within one which stays before it, or within one behind it.
fn uncontained(alloc: Global, lists: &[Cons]) -> Result<ConLists, Memory>
    ensures { IfOk result (λ made. made ≡ uncontained [] lists.now) }
{
    let mut before = ConLists::new(alloc);
    let mut left = lists;
    while let Some((list, behind)) = left.split_first() {
        if !is_needless(alloc, before.as_slice(), behind, list.as_slice())? {
            before.push(list.copy(alloc)?)?;
        }
        left = behind;
    }
    Ok(before)
}

/// What is read of a row tells that it is in normal form.
fn note_row(constraint: &Con)
    ensures { RowsNormal (constraint.now ∷ []) }
{
    if let Con::Row(row) = constraint {
        let _op = row.op();
    }
}

/// Notes that each row of the list is in normal form.
fn note_rows(list: &[Con])
    ensures { RowsNormal list.now }
{
    for constraint in list {
        note_row(constraint);
    }
}

/// Notes that each row of the lists is in normal form.
fn note_all_rows(lists: &[Cons])
    ensures { Each RowsNormal lists.now }
{
    for list in lists {
        note_rows(list.as_slice());
    }
}

/// The lists in their shortest form. One of them is true, as it is told, exactly where one of the given ones is: a row
/// tells of its variables that they are numbers, too.
pub fn shortest(lists: &ConLists) -> Result<ConLists, Memory>
    ensures exact { IfOk result (λ made. made ≡ shortest lists.now) }
    ensures told { IfOk result (λ made. (v : Valuation) → tells_one v.of made ≡ tells_one v.of lists.now) }
{
    let alloc = lists.allocator();
    note_all_rows(lists.as_slice());
    let short = shortest_lists(alloc, lists.as_slice())?;
    uncontained(alloc, short.as_slice())
}
