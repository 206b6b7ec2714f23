//! What the bindings lead a term to, and the number that a given row leaves to an unbound variable.
ghost use Rattle.std.specs.Prelude.{◌≡◌, IfOk, IfSome, List, false, option_copied, true};
ghost use Rattle.scasp_bound.specs.Bounds.{is_bound_in};
ghost use Rattle.scasp_law_parts.specs.Bound.{Triangular};
ghost use Rattle.scasp_store.specs.Inside.Leaving.{IsLeftBy, is_about};
ghost use Rattle.scasp_store.specs.Inside.Open.{GoodOf, KnownOf};
ghost use Rattle.scasp_store.specs.Leaving.{IsLeft};
ghost use Rattle.scasp_store.specs.declared.rest.Rest.{Rest as ThisRest};
ghost use Rattle.scasp_syntax.specs.declared.con.Con.{Con as ThisCon};
ghost use Rattle.scasp_syntax.specs.Values.{under};
ghost use Rattle.scasp_syntax.specs.View.{tm_of};
ghost use Rattle.scasp_unify.specs.Solving.{sub_of};

use crate::asking::are_told;
use crate::fixing::left_over;
use crate::rest::{Known, Rest};
use crate::store::Store;
use scasp_bound::Bound;
use scasp_list::Memory;
use scasp_num::Rat;
use scasp_syntax::{Con, Term};
use scasp_unify::Binding;
use std::alloc::Global;

// ---- one row

/// Whether the constraint is a row that speaks, as it reads, of numbers and the variable alone.
fn is_about(alloc: Global, bound: &Bound, x: u64, constraint: &Con) -> Result<bool, Memory>
    ensures { IfOk result (λ answer. answer ≡ is_about (sub_of bound.now.now) x constraint.now) }
{
    match constraint {
        Con::Row(row) => are_told(alloc, bound, &[x], row.coeffs().as_slice()),
        Con::Eq(_, _) | Con::Neq(_, _) | Con::NotShape(_, _, _) | Con::Num(_) | Con::NotNum(_) => {
            Ok(false)
        }
    }
}

/// The number of the binding, if it is of the variable and to a number.
fn number_for(binding: &Binding, x: u64) -> Option<Rat>
    ensures { IfSome result (λ q. binding.now ≡ record { x = x; term = Term.Num q }) }
{
    if binding.x != x {
        return None;
    }
    match &binding.term {
        Term::Num(value) => Some(*value),
        Term::Var(_) | Term::App(_, _) => None,
    }
}

/// The number that the constraint leaves to the variable, if it leaves one.
fn left_by(alloc: Global, bound: &Bound, x: u64, constraint: &Con) -> Result<Option<Rat>, Memory>
    ensures { Triangular bound.now.now → IfOk result (λ found. IfSome found (IsLeftBy bound.now.now constraint.now x)) }
{
    if !is_about(alloc, bound, x, constraint)? {
        return Ok(None);
    }
    match left_over(alloc, bound, constraint)? {
        Some(binding) => Ok(number_for(&binding, x)),
        None => Ok(None),
    }
}

// ---- the given rows

/// The number that the constraint at the place leaves to the unbound variable, if it leaves one.
fn left_at(
    alloc: Global,
    bound: &Bound,
    x: u64,
    given: &[Con],
    place: usize,
) -> Result<Option<Rat>, Memory>
    requires { is_bound_in bound.now.now x ≡ false }
    ensures { Triangular bound.now.now → IfOk result (λ found. IfSome found (IsLeft bound.now.now given.now x)) }
{
    match given.get(place) {
        Some(constraint) => {
            let found = left_by(alloc, bound, x, constraint)?;
            Ok(found)
        }
        None => Ok(None),
    }
}

/// The number that one of the constraints before the place leaves to the unbound variable, if one does, from the last one back.
fn left_before(
    alloc: Global,
    bound: &Bound,
    x: u64,
    given: &[Con],
    count: usize,
) -> Result<Option<Rat>, Memory>
    requires { is_bound_in bound.now.now x ≡ false }
    ensures { Triangular bound.now.now → IfOk result (λ found. IfSome found (IsLeft bound.now.now given.now x)) }
{
    let mut place = count;
    while place > 0 {
        place -= 1;
        if let Some(value) = left_at(alloc, bound, x, given, place)? {
            return Ok(Some(value));
        }
    }
    Ok(None)
}

/// The number that a given constraint leaves to the variable, if one does and the variable is unbound. They are gone through
/// only if a number is known to be left to the variable.
#[tactic(auto, using(crate::proofs::LeftLemmas::good_triangular))]
fn left_read(
    alloc: Global,
    bound: &Bound,
    given: &[Con],
    rest: &Rest,
    x: u64,
) -> Result<Option<Rat>, Memory>
    ensures { GoodOf bound.now.now given.now rest.now → IfOk result (λ found. IfSome found (IsLeft bound.now.now given.now x)) }
{
    if bound.is_bound(x) || !rest.reading.is_bound(x) {
        return Ok(None);
    }
    let found = left_before(alloc, bound, x, given, given.len())?;
    Ok(found)
}

/// As `left_read`, by what is known.
fn left_known(
    alloc: Global,
    known: Known,
    bound: &Bound,
    given: &[Con],
    rest: &Rest,
    x: u64,
) -> Result<Option<Rat>, Memory>
    ensures { KnownOf true known bound.now.now given.now rest.now → IfOk result (λ found. IfSome found (IsLeft bound.now.now given.now x)) }
{
    match known {
        Known::Read => left_read(alloc, bound, given, rest, x),
        Known::Nothing | Known::Contrary => Ok(None),
    }
}

// ---- what terms lead to

/// What the bindings lead the term to: a number, a name with arguments, or a variable that none of them binds. More than
/// 2^64 bindings are not followed.
#[tactic(auto, using(crate::proofs::LeftLemmas::reached_next))]
fn reached<'a>(bound: &'a Bound, term: &'a Term) -> &'a Term
    ensures { Triangular bound.now.now → under (sub_of bound.now.now) (tm_of result.now) ≡ under (sub_of bound.now.now) (tm_of term.now) }
{
    let mut reached = term;
    let mut left = u64::MAX;
    'bindings: while left > 0 {
        let Term::Var(x) = reached else {
            return reached;
        };
        let Some(binding) = bound.find(*x) else {
            return reached;
        };
        reached = &binding.term;
        left -= 1;
    }
    reached
}

/// As `reached`, by what is known.
fn reached_known<'a>(known: Known, bound: &'a Bound, term: &'a Term) -> Option<&'a Term>
    ensures { (cs : List ThisCon) (rest : ThisRest) → KnownOf true known bound.now.now cs rest → IfSome (option_copied result) (λ found. under (sub_of bound.now.now) (tm_of found) ≡ under (sub_of bound.now.now) (tm_of term.now)) }
{
    match known {
        Known::Read => Some(reached(bound, term)),
        Known::Nothing | Known::Contrary => None,
    }
}

impl Store {
    /// The number that a given row leaves to the variable, if one does and the variable is unbound.
    pub fn left_to(&self, alloc: Global, x: u64) -> Result<Option<Rat>, Memory>
        ensures { IfOk result (λ found. IfSome found (IsLeft self.now.bound.now self.now.given.now x)) }
    {
        if !self.is_solved {
            return Ok(None);
        }
        let given = self.given.as_slice();
        let found = left_known(alloc, self.known, &self.bound, given, &self.rest, x)?;
        Ok(found)
    }

    /// A term that reads as this one does, and is no variable if this one reads as none; None where that is not known.
    pub fn reached<'a>(&'a self, term: &'a Term) -> Option<&'a Term>
        ensures { IfSome (option_copied result) (λ found. under (sub_of self.now.bound.now) (tm_of found) ≡ under (sub_of self.now.bound.now) (tm_of term.now)) }
    {
        if !self.is_solved {
            return None;
        }
        reached_known(self.known, &self.bound, term)
    }
}
