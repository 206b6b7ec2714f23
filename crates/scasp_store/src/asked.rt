//! Questions by what is known.
ghost use Rattle.std.specs.Prelude.{◌≡◌, ◌++◌, Bool, IfOk, IfSome, List, OnOk, length, true};
ghost use Rattle.scasp_hint.specs.Satisfying.{sat};
ghost use Rattle.scasp_law_parts.specs.Bound.{equations};
ghost use Rattle.scasp_store.specs.Inside.Open.{GoodOf, IsContrary, KnownOf, SameMarks};
ghost use Rattle.scasp_store.specs.declared.rest.Known.TheVariants as known;
ghost use Rattle.scasp_syntax.specs.declared.con.Con.{Con as ThisCon};
ghost use Rattle.scasp_unify.specs.declared.bindings.Binding.{Binding as ThisBinding};

use crate::answering::{answer, refuses};
use crate::behind::renew;
use crate::failing::fails;
use crate::opening::{settle, standing};
use crate::rest::{Known, Rest};
use scasp_bound::Bound;
use scasp_list::Memory;
use scasp_syntax::Con;
use std::alloc::Global;

/// Whether the bindings and the given constraints have a valuation with these, by the list of what is open; None where the
/// whole list is to be asked.
fn answer_open(
    alloc: Global,
    given: &[Con],
    rest: &mut Rest,
    more: &[Con],
) -> Result<Option<bool>, Memory>
    ensures answer { (bs : List ThisBinding) → GoodOf bs given.now rest.old → IfOk result (λ found. IfSome found (λ answer. answer ≡ sat (equations bs ++ (given.now ++ more.now)))) }
    ensures good { OnOk result ((bs : List ThisBinding) → GoodOf bs given.now rest.old → GoodOf bs given.now rest.new) }
    ensures marks { SameMarks rest.old rest.new }
{
    settle(alloc, given, rest)?;
    let list = standing(alloc, given, rest.places.as_slice(), more)?;
    let found = answer(alloc, &rest.reading, list.as_slice())?;
    Ok(found)
}

/// As `answer_open`; one or two constraints alone may tell the answer before.
fn answer_read(
    alloc: Global,
    bound: &Bound,
    given: &[Con],
    rest: &mut Rest,
    more: &[Con],
) -> Result<Option<bool>, Memory>
    ensures answer { GoodOf bound.now.now given.now rest.old → IfOk result (λ found. IfSome found (λ answer. answer ≡ sat (equations bound.now.now ++ (given.now ++ more.now)))) }
    ensures good { OnOk result (GoodOf bound.now.now given.now rest.old → GoodOf bound.now.now given.now rest.new) }
    ensures marks { SameMarks rest.old rest.new }
{
    if fails(alloc, bound, given, rest.places.as_slice(), more)? {
        return Ok(Some(false));
    }
    let found = answer_open(alloc, given, rest, more)?;
    Ok(found)
}

/// As `answer_open`, where the bindings and the given constraints have no valuation together.
fn answer_contrary(
    alloc: Global,
    given: &[Con],
    rest: &Rest,
    more: &[Con],
) -> Result<Option<bool>, Memory>
    ensures { (bs : List ThisBinding) → IsContrary bs given.now rest.now.reading.now rest.now.places.now → IfOk result (λ found. IfSome found (λ answer. answer ≡ sat (equations bs ++ (given.now ++ more.now)))) }
{
    let list = standing(alloc, given, rest.places.as_slice(), more)?;
    if refuses(alloc, &rest.reading, list.as_slice())? {
        return Ok(Some(false));
    }
    Ok(None)
}

/// Whether the bindings and the given constraints have a valuation with these, by what is known; None where the whole list
/// is to be asked.
pub(crate) fn answer_known(
    alloc: Global,
    known: Known,
    bound: &Bound,
    given: &[Con],
    rest: &mut Rest,
    more: &[Con],
) -> Result<Option<bool>, Memory>
    ensures answer { KnownOf true known bound.now.now given.now rest.old → IfOk result (λ found. IfSome found (λ answer. answer ≡ sat (equations bound.now.now ++ (given.now ++ more.now)))) }
    ensures known { OnOk result (KnownOf true known bound.now.now given.now rest.old → KnownOf true known bound.now.now given.now rest.new) }
    ensures marks { SameMarks rest.old rest.new }
{
    match known {
        Known::Read => answer_read(alloc, bound, given, rest, more),
        Known::Contrary => {
            let found = answer_contrary(alloc, given, rest, more)?;
            Ok(found)
        }
        Known::Nothing => Ok(None),
    }
}

/// Makes it known what the constraints, so many, are read by; want of memory where a change has failed.
pub(crate) fn regain(
    alloc: Global,
    was: Known,
    bound: &Bound,
    count: usize,
    rest: &mut Rest,
) -> Result<(), Memory>
    ensures known { OnOk result ((solved : Bool) (cs : List ThisCon) → length cs ≡ count → KnownOf solved was bound.now.now cs rest.old → KnownOf solved known.Read bound.now.now cs rest.new) }
    ensures marks { SameMarks rest.old rest.new }
{
    match was {
        Known::Read => Ok(()),
        Known::Contrary => {
            renew(alloc, bound, count, rest)?;
            Ok(())
        }
        Known::Nothing => Err(Memory),
    }
}
