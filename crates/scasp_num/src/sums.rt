//! Rows given by pairs of a variable and a number, made whole.
ghost use Rattle.std.specs.Prelude.{◌≡◌, ◌<◌, ℕ, ℤ, pos, unsigned_abs, ◌<ℤ◌, [], IfOk};
ghost use Rattle.std.specs.Result.{result_ok};
ghost use Rattle.scasp_num.specs.Number.{InRange};
ghost use Rattle.scasp_num.specs.Linear.{Gives};
ghost use Rattle.scasp_num.specs.Sums.{added, summed, multiple, whole, whole_number};

use crate::Memory;
use crate::bounded::{product, quotient};
use crate::linear::{Coeff, Coeffs, RatPair, RatPairs, RowErr};
use crate::rational::{Overflow, Rat, gcd};
use std::alloc::Global;

/// The pairs with one more number of `x` added, where their variables ascend.
fn added(alloc: Global, sums: &[RatPair], x: u64, value: &Rat) -> Result<RatPairs, RowErr>
    ensures { Gives result (added x value.now sums.now) }
{
    let mut pairs = RatPairs::new(alloc);
    let mut is_placed = false;
    for k in sums {
        if is_placed || k.x < x {
            pairs.push(*k)?;
        } else if k.x == x {
            let sum = k.value.add(value)?;
            pairs.push(RatPair { x, value: sum })?;
            is_placed = true;
        } else {
            pairs.push(RatPair { x, value: *value })?;
            pairs.push(*k)?;
            is_placed = true;
        }
    }
    if !is_placed {
        pairs.push(RatPair { x, value: *value })?;
    }
    Ok(pairs)
}

/// The sum of each variable's numbers, in ascending order of the variables.
pub(crate) fn summed(alloc: Global, pairs: &[RatPair]) -> Result<RatPairs, RowErr>
    ensures { Gives result (summed [] pairs.now) }
{
    let mut sums = RatPairs::new(alloc);
    for p in pairs {
        sums = added(alloc, sums.as_slice(), p.x, &p.value)?;
    }
    Ok(sums)
}

/// The least common multiple of the denominators of a number and of the pairs.
pub(crate) fn multiple(constant: &Rat, sums: &[RatPair]) -> Result<i128, Overflow>
    ensures value { result_ok result ≡ multiple constant.now.den sums.now }
    ensures range { IfOk result InRange }
{
    let mut l = constant.den();
    for k in sums {
        let g = gcd(l.unsigned_abs(), k.value.parts());
        l = product(l, k.value.den_over(g))?;
    }
    Ok(l)
}

/// A number times a multiple of its denominator.
pub(crate) fn whole_number(l: i128, value: &Rat) -> Result<i128, Overflow>
    requires { InRange l }
    ensures value { result_ok result ≡ whole_number l value.now }
    ensures range { IfOk result InRange }
{
    product(value.num(), quotient(l, value.parts()))
}

/// The pairs times a multiple of their denominators.
pub(crate) fn whole(alloc: Global, l: i128, sums: &[RatPair]) -> Result<Coeffs, RowErr>
    requires { InRange l }
    ensures { Gives result (whole l sums.now) }
{
    let mut terms = Coeffs::new(alloc);
    for k in sums {
        let c = whole_number(l, &k.value)?;
        terms.push(Coeff { x: k.x, c })?;
    }
    Ok(terms)
}
