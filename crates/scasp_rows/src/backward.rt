//! The values that variables take after their elimination.
ghost use Rattle.std.specs.Prelude.{◌≡◌, ◌≢◌, ◌*ℤ◌, neg_ℤ, [], ◌∷◌, None, IfOk, pos};
ghost use Rattle.std.specs.Result.{result_ok};
ghost use Rattle.scasp_rows.specs.Steps.{whole};
ghost use Rattle.scasp_rows.specs.Inside.Asides.{asides_from, rows_having, valued};
ghost use Rattle.scasp_rows.specs.Elimination.{Ends, factor};
ghost use Rattle.scasp_rows.specs.Samples.{between, bound, bound_with, by_solution, is_less, middle, over, plus_product, plus_term, solution_of, sum_with, tighter, value_for, value_in, values_from, with_value_for, zero_number};

use crate::elimination::{first_equation, without};
use crate::rows::{factor, has_sign};
use crate::state::{Halt, Sign, Standing, StandingRows, State, copy};
use scasp_list::{Memory, Sequence};
use scasp_num::{Coeff, Overflow, Rat, RatPair, RatPairs, Row};
use std::alloc::Global;
use std::cmp::Ordering;

/// The whole number.
fn whole(z: i128) -> Result<Rat, Overflow>
    ensures { result_ok result ≡ whole z }
{
    Rat::new(z, 1)
}

fn zero() -> Rat
    ensures { result ≡ zero_number }
{
    match Rat::new(0, 1) {
        Ok(zero) => zero,
        Err(_) => unreachable!(),
    }
}

/// The value of a variable; 0 where the list has none.
fn value_in(point: &[RatPair], y: u64) -> Rat
    ensures { result ≡ value_in point.now y }
{
    for p in point {
        if p.x == y {
            return p.value;
        }
    }
    zero()
}

/// The sum, and the coefficient times the value.
fn plus_product(sum: &Rat, c: i128, value: &Rat) -> Result<Rat, Overflow>
    ensures { result_ok result ≡ plus_product sum.now c value.now }
{
    let product = whole(c)?.mul(value)?;
    sum.add(&product)
}

/// The sum, and a coefficient times its variable's value, but for `x`.
fn plus_term(x: u64, point: &[RatPair], k: &Coeff, sum: &Rat) -> Result<Rat, Overflow>
    ensures { result_ok result ≡ plus_term x point.now k.now sum.now }
{
    if k.x == x {
        return Ok(*sum);
    }
    plus_product(sum, k.c, &value_in(point, k.x))
}

/// The sum, and each coefficient times its value in order, but for `x`.
fn sum_with(x: u64, point: &[RatPair], terms: &[Coeff], start: &Rat) -> Result<Rat, Overflow>
    ensures { result_ok result ≡ sum_with x point.now terms.now start.now }
{
    let mut sum = *start;
    for k in terms {
        sum = plus_term(x, point, k, &sum)?;
    }
    Ok(sum)
}

/// The quotient by a whole number that is not 0.
fn over(p: &Rat, c: i128) -> Result<Rat, Overflow>
    requires { c ≢ pos 0 }
    ensures { result_ok result ≡ over p.now c }
{
    let divisor = whole(c)?;
    p.div(&divisor)
}

/// The coefficient of `x`, with its sign turned.
#[tactic(auto, using(scasp_num::proofs::Numbers::plain))]
fn turned_factor(x: u64, r: &Standing) -> i128
    ensures { result ≡ neg_ℤ (factor x r.now) }
{
    -factor(x, r)
}

/// The value of `x` at which the row's sum is 0, where the row has `x`.
#[tactic(auto, using(scasp_num::proofs::Numbers::plain), unfolding(crate::specs::Samples::solution_of))]
fn solution_of(x: u64, point: &[RatPair], r: &Standing) -> Result<Rat, Overflow>
    requires { factor x r.now ≢ pos 0 }
    ensures { result_ok result ≡ solution_of x point.now r.now.row }
{
    let constant = whole(r.row.constant())?;
    let sum = sum_with(x, point, r.row.coeffs().as_slice(), &constant)?;
    over(&sum, turned_factor(x, r))
}

fn is_less(p: &Rat, q: &Rat) -> bool
    ensures { result ≡ is_less p.now q.now }
{
    p.cmp(q) == Ordering::Less
}

/// Of two lower bounds the greater one, of two upper bounds the lesser one.
fn tighter(sign: Sign, best: &Option<Rat>, q: &Rat) -> Rat
    ensures { result ≡ tighter sign best.now q.now }
{
    match best {
        None => *q,
        Some(p) => {
            let replaces = match sign {
                Sign::Below => is_less(p, q),
                Sign::Zero => false,
                Sign::Above => is_less(q, p),
            };
            if replaces { *q } else { *p }
        }
    }
}

/// The bound so far, and that of a row with the sign.
fn bound_with(
    sign: Sign,
    x: u64,
    point: &[RatPair],
    r: &Standing,
    best: Option<Rat>,
) -> Result<Option<Rat>, Overflow>
    requires { sign ≢ Sign.Zero }
    ensures { result_ok result ≡ bound_with sign x point.now r.now best }
{
    if !has_sign(sign, factor(x, r)) {
        return Ok(best);
    }
    let q = solution_of(x, point, r)?;
    Ok(Some(tighter(sign, &best, &q)))
}

/// The greatest lower bound or the least upper bound of the rows.
fn bound(sign: Sign, x: u64, point: &[RatPair], rows: &[Standing]) -> Result<Option<Rat>, Overflow>
    requires { sign ≢ Sign.Zero }
    ensures { result_ok result ≡ bound sign x point.now rows.now None }
{
    let mut best = None;
    for r in rows {
        best = bound_with(sign, x, point, r, best)?;
    }
    Ok(best)
}

/// Half of the sum.
fn middle(lo: &Rat, hi: &Rat) -> Result<Rat, Overflow>
    ensures { result_ok result ≡ middle lo.now hi.now }
{
    over(&lo.add(hi)?, 2)
}

/// A number between the bounds: the lower one where they are equal, else the middle; one more or one less
/// than the only bound; 0 without bounds.
fn between(lo: &Option<Rat>, hi: &Option<Rat>) -> Result<Rat, Overflow>
    ensures { result_ok result ≡ between lo.now hi.now }
{
    match (lo, hi) {
        (None, None) => whole(0),
        (Some(lo), None) => lo.add(&whole(1)?),
        (None, Some(hi)) => hi.sub(&whole(1)?),
        (Some(lo), Some(hi)) => {
            if is_less(lo, hi) {
                middle(lo, hi)
            } else {
                Ok(*lo)
            }
        }
    }
}

/// The value of `x` by its bounds.
fn by_bounds(x: u64, rows: &[Standing], point: &[RatPair]) -> Result<Rat, Overflow>
    ensures { result_ok result ≡ by_solution x point.now rows.now None }
{
    let lo = bound(Sign::Below, x, point, rows)?;
    let hi = bound(Sign::Above, x, point, rows)?;
    between(&lo, &hi)
}

/// The value of `x`, where the variables after it have theirs.
fn value_for(x: u64, rows: &[Standing], point: &[RatPair]) -> Result<Rat, Overflow>
    ensures { result_ok result ≡ value_for x rows.now point.now }
{
    match first_equation(x, rows) {
        Some(p) => solution_of(x, point, p),
        None => by_bounds(x, rows, point),
    }
}

/// The point with the value of `x` in front.
fn in_front(alloc: Global, first: RatPair, point: &[RatPair]) -> Result<RatPairs, Memory>
    ensures { IfOk result (λ all. all ≡ first ∷ point.now) }
{
    let mut all = RatPairs::new(alloc);
    all.push(first)?;
    for p in point {
        all.push(*p)?;
    }
    Ok(all)
}

/// The point with a value for `x`.
fn with_value_for(
    alloc: Global,
    x: u64,
    rows: &[Standing],
    point: &[RatPair],
) -> Result<RatPairs, Halt>
    ensures { Ends result (with_value_for x point.now (value_for x rows.now point.now)) }
{
    match value_for(x, rows, point) {
        Ok(value) => Ok(in_front(alloc, RatPair { x, value }, point)?),
        Err(_) => Err(Halt::Overflow),
    }
}

/// The rows with a variable, as it is eliminated.
#[derive(Debug, Drop)]
pub struct Aside {
    pub x: u64,
    pub rows: StandingRows,
}

/// What is set aside, in the order of elimination.
type Asides = Sequence<Aside>;

/// The rows with `x`.
fn rows_having(alloc: Global, x: u64, rows: &[Standing]) -> Result<StandingRows, Memory>
    ensures { IfOk result (λ kept. kept ≡ rows_having x rows.now) }
{
    let mut kept = StandingRows::new(alloc);
    for r in rows {
        if factor(x, r) != 0 {
            kept.push(copy(r)?)?;
        }
    }
    Ok(kept)
}

/// Eliminates the variables in order, and keeps of each the rows with it.
fn set_aside(alloc: Global, variables: &[u64], start: State) -> Result<Asides, Halt>
    ensures { Ends result (asides_from variables.now start) }
{
    let mut asides = Asides::new(alloc);
    let mut state = start;
    for x in variables {
        let rows = rows_having(alloc, *x, state.standing.as_slice())?;
        asides.push(Aside { x: *x, rows })?;
        state = without(alloc, *x, state)?;
    }
    Ok(asides)
}

/// Gives the variables their values, from the last one to the first.
fn valued(alloc: Global, asides: Asides) -> Result<RatPairs, Halt>
    ensures { Ends result (valued asides []) }
{
    let mut rest = asides.into_vec();
    let mut point = RatPairs::new(alloc);
    while let Some(aside) = rest.pop() {
        match with_value_for(alloc, aside.x, aside.rows.as_slice(), point.as_slice()) {
            Ok(known) => point = known,
            Err(halt) => return Err(halt),
        }
    }
    Ok(point)
}

/// Eliminates the variables in order, and gives them values in the opposite order.
pub(crate) fn values_from(alloc: Global, variables: &[u64], state: State) -> Result<RatPairs, Halt>
    ensures { Ends result (values_from variables.now state) }
{
    match set_aside(alloc, variables, state) {
        Ok(asides) => valued(alloc, asides),
        Err(halt) => Err(halt),
    }
}
