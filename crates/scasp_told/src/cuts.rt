//! Where pieces begin and end, by how many items are in each but the last.
ghost use Rattle.std.specs.Prelude.{◌≡◌, ◌+◌, ◌^◌, ◌<◌, ◌≤◌, length, slice_get, sum, take, Some, OnOk};
ghost use Rattle.std.specs.List.{insert};
ghost use Rattle.scasp_told.specs.Pieces.{last_of};
ghost use Rattle.scasp_told.specs.Inside.Cuts.{cut, end_of, raised_at, total};

use scasp_list::Memory;
use scasp_trail::Trailed;

/// The sum of the counts.
fn total_of(counts: &[usize]) -> usize
    requires { sum counts.now < 2 ^ 64 }
    ensures { result ≡ sum counts.now }
{
    counts.iter().sum()
}

/// Where the piece of this number begins, of a list of so many items.
fn start_of(len: usize, counts: &[usize], number: usize) -> usize
    requires fits { total counts.now ≤ len }
    requires number { number ≤ length counts.now }
    ensures start { result ≡ total (take number counts.now) }
    ensures within { result ≤ len }
{
    total_of(&counts[..number])
}

/// Where the piece of this number ends, which is not the last one.
fn end_at(len: usize, counts: &[usize], number: usize) -> usize
    requires fits { total counts.now ≤ len }
    requires number { number < length counts.now }
    ensures end { result ≡ end_of number counts.now }
    ensures within { result ≤ len }
    ensures after { total (take number counts.now) ≤ result }
{
    start_of(len, counts, number + 1)
}

/// The place in the list of an item of the last piece.
pub(crate) fn place_in_last(len: usize, counts: &[usize], at: usize) -> usize
    requires { total counts.now + at < len }
    ensures { result ≡ total counts.now + at }
{
    start_last(len, counts) + at
}

/// Where the last piece begins.
#[tactic(auto, using(std::proofs::lemmas::List::take_all))]
pub(crate) fn start_last(len: usize, counts: &[usize]) -> usize
    requires { total counts.now ≤ len }
    ensures { result ≡ total counts.now }
{
    start_of(len, counts, counts.len())
}

/// The items of the piece of this number, which is not the last one.
fn piece_inside<'a, T>(items: &'a [T], counts: &[usize], number: usize) -> &'a [T]
    requires fits { total counts.now ≤ length items.now }
    requires number { number < length counts.now }
    ensures { slice_get (cut counts.now items.now) number ≡ Some result.now }
{
    let start = start_of(items.len(), counts, number);
    let end = end_at(items.len(), counts, number);
    &items[start..end]
}

/// The items behind those that are counted.
fn piece_behind<'a, T>(items: &'a [T], counts: &[usize]) -> &'a [T]
    requires { total counts.now ≤ length items.now }
    ensures { slice_get (cut counts.now items.now) (length counts.now) ≡ Some result.now }
{
    let start = start_last(items.len(), counts);
    &items[start..]
}

/// The items of the piece of this number.
pub(crate) fn piece_of<'a, T>(items: &'a [T], counts: &[usize], number: usize) -> &'a [T]
    requires fits { total counts.now ≤ length items.now }
    requires number { number ≤ length counts.now }
    ensures { slice_get (cut counts.now items.now) number ≡ Some result.now }
{
    if number < counts.len() {
        return piece_inside(items, counts, number);
    }
    piece_behind(items, counts)
}

/// The items of the last piece.
pub(crate) fn last_of<'a, T>(items: &'a [T], counts: &[usize]) -> &'a [T]
    requires { total counts.now ≤ length items.now }
    ensures { result.now ≡ last_of (cut counts.now items.now) }
{
    piece_behind(items, counts)
}

/// The count of this number.
fn count_of(counts: &[usize], number: usize) -> usize
    requires { number < length counts.now }
    ensures { slice_get counts.now number ≡ Some result }
{
    counts[number]
}

/// How many items are in the piece of this number, which is not the last one, of a list of so many items.
fn count_at(len: usize, counts: &[usize], number: usize) -> usize
    requires fits { total counts.now ≤ len }
    requires number { number < length counts.now }
    ensures count { slice_get counts.now number ≡ Some result }
    ensures within { result ≤ len }
{
    count_of(counts, number)
}

/// Puts the item at the end of the piece, which has one more then.
#[tactic(auto, using(crate::proofs::CutLemmas::raised, crate::proofs::CutLemmas::fits_longer, crate::proofs::CutLemmas::fits_raised))]
pub(crate) fn insert_in<T: Drop>(
    items: &mut Trailed<T>,
    counts: &mut Trailed<usize>,
    number: usize,
    item: T,
) -> Result<(), Memory>
    requires fits { total counts.old.now ≤ length items.old.now }
    requires number { number < length counts.old.now }
    ensures items { OnOk result (items.new.now ≡ insert items.old.now (end_of number counts.old.now) item) }
    ensures items_before { items.new.before ≡ items.old.before }
    ensures counts { OnOk result (counts.new.now ≡ raised_at number counts.old.now) }
    ensures counts_before { counts.new.before ≡ counts.old.before }
    ensures fits { total counts.new.now ≤ length items.new.now }
{
    let len = items.len();
    let count = count_at(len, counts.as_slice(), number);
    let end = end_at(len, counts.as_slice(), number);
    items.insert(end, item)?;
    counts.set(number, count + 1)?;
    Ok(())
}
