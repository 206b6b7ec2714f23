//! Lists that share what is before their last item.
ghost use Rattle.std.specs.Prelude.{◌≡◌, ◌+◌, [], ◌∷◌, ◌++◌, filter, not, if◌then◌else◌, IfOk, OnOk};
ghost use Rattle.std.specs.List.{list_any};
ghost use Rattle.scasp_forall.specs.Inside.Listed.{listed};
ghost use Rattle.scasp_search_rules.specs.Successors.Reading.{count_from};
ghost use Rattle.scasp_search_rules.specs.Successors.Splits.{is_bound_in};

use scasp_bound::Bound;
use scasp_lines_places::Chain;
use scasp_list::{Memory, Sequence};
use scasp_readings::ConTest;
use scasp_syntax::{Con, DeepCopy, VarList};
use std::alloc::Global;

/// The list with these variables behind it.
#[tactic(auto, using(crate::proofs::ListLemmas::one_more))]
pub(crate) fn with_vars(alloc: Global, chain: &Chain<u64>, xs: &[u64]) -> Result<Chain<u64>, Memory>
    ensures { IfOk result (λ made. listed made ≡ listed chain.now ++ xs.now) }
{
    let mut made = chain.share()?;
    for x in xs {
        made = made.with(alloc, *x)?;
    }
    Ok(made)
}

/// Copies of the items.
#[tactic(auto, using(crate::proofs::ListLemmas::turned))]
pub(crate) fn list_of<T: DeepCopy + Drop>(
    alloc: Global,
    chain: &Chain<T>,
) -> Result<Sequence<T>, Memory>
    ensures { IfOk result (λ made. made ≡ listed chain.now) }
{
    let mut made = Vec::new(alloc);
    let mut rest = chain;
    'items: while let Some((item, others)) = rest.first() {
        made.push(item.copy(alloc)?)?;
        rest = others;
    }
    made.reverse();
    Ok(Sequence::from(made))
}

/// Whether one of the constraints passes.
#[tactic(auto, using(crate::proofs::ListLemmas::any_reverse))]
pub(crate) fn any_of<T: ConTest>(
    alloc: Global,
    test: &T,
    chain: &Chain<Con>,
) -> Result<bool, Memory>
    ensures { IfOk result (λ answer. answer ≡ list_any (T.holds test.now) (listed chain.now)) }
{
    let mut rest = chain;
    'items: while let Some((constraint, others)) = rest.first() {
        if test.passes(alloc, constraint)? {
            return Ok(true);
        }
        rest = others;
    }
    Ok(false)
}

/// Those of the variables that are bound, in order.
pub(crate) fn bound_among(alloc: Global, bound: &Bound, xs: &[u64]) -> Result<VarList, Memory>
    ensures { IfOk result (λ found. found ≡ filter (is_bound_in bound.now.now) xs.now) }
{
    let mut found = VarList::new(alloc);
    for x in xs {
        if bound.is_bound(*x) {
            found.push(*x)?;
        }
    }
    Ok(found)
}

/// Puts the variable behind the others, unless it is bound.
fn push_unbound(bound: &Bound, x: u64, found: &mut VarList) -> Result<(), Memory>
    ensures { OnOk result (found.new ≡ found.old ++ (if is_bound_in bound.now.now x then [] else x ∷ [])) }
{
    if bound.is_bound(x) {
        Ok(())
    } else {
        found.push(x)
    }
}

/// The number of the variable at the place behind the first one; want of memory where there is no such number.
fn number_at(first: u64, place: u64) -> Result<u64, Memory>
    ensures { IfOk result (λ x. x ≡ first + place) }
{
    first.checked_add(place).ok_or(Memory)
}

/// Those of so many variables, from `first` on, that are not bound.
pub fn unbound_from(alloc: Global, bound: &Bound, first: u64, count: u64) -> Result<VarList, Memory>
    ensures { IfOk result (λ xs. xs ≡ filter (λ x. not (is_bound_in bound.now.now x)) (count_from first count)) }
{
    let mut found = VarList::new(alloc);
    for place in 0..count {
        let x = number_at(first, place)?;
        push_unbound(bound, x, &mut found)?;
    }
    Ok(found)
}
