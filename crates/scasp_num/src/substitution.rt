//! What a row becomes where a variable of it is replaced by a number.
ghost use Rattle.std.specs.Prelude.{◌≡◌, IfOk};
ghost use Rattle.std.specs.Result.{result_ok};
ghost use Rattle.scasp_num.specs.Number.{InRange};
ghost use Rattle.scasp_list.specs.Each.{Each};
ghost use Rattle.scasp_num.specs.Linear.{Gives, coefficient, others_times, put_constant, merged};

use crate::bounded::{product, sum};
use crate::linear::{Coeff, Coeffs, Row, RowErr};
use crate::rational::{Overflow, Rat};
use std::alloc::Global;

/// The coefficient of `x`; 0 where it has none.
pub(crate) fn coefficient(coeffs: &[Coeff], x: u64) -> i128
    ensures { result ≡ coefficient x coeffs.now }
{
    for k in coeffs {
        if k.x == x {
            return k.c;
        }
    }
    0
}

/// The terms without `x`, times `d`. Overflow exactly where one of them lies outside -M..M.
pub(crate) fn others_times(
    alloc: Global,
    d: i128,
    x: u64,
    coeffs: &[Coeff],
) -> Result<Coeffs, RowErr>
    ensures { Gives result (others_times d x coeffs.now) }
{
    let mut kept = Coeffs::new(alloc);
    for k in coeffs {
        if k.x != x {
            let c = product(d, k.c)?;
            kept.push(Coeff { x: k.x, c })?;
        }
    }
    Ok(kept)
}

/// The constant of a row, times the denominator, with the coefficient of `x` times the numerator.
pub(crate) fn put_constant(row: &Row, x: u64, value: &Rat) -> Result<i128, Overflow>
    ensures exact { result_ok result ≡ put_constant row.now x value.now }
    ensures range { IfOk result InRange }
{
    let left = product(value.den(), row.constant())?;
    let right = product(row.coefficient(x), value.num())?;
    sum(left, right)
}

/// The terms with `c` times `y` added, where they ascend. Overflow exactly where the sum of two coefficients
/// lies outside -M..M.
pub(crate) fn merged(alloc: Global, coeffs: &[Coeff], y: u64, c: i128) -> Result<Coeffs, RowErr>
    ensures { Gives result (merged y c coeffs.now) }
{
    let mut terms = Coeffs::new(alloc);
    let mut is_placed = false;
    for k in coeffs {
        if is_placed || k.x < y {
            terms.push(*k)?;
        } else if k.x == y {
            let sum = sum(k.c, c)?;
            terms.push(Coeff { x: y, c: sum })?;
            is_placed = true;
        } else {
            terms.push(Coeff { x: y, c })?;
            terms.push(*k)?;
            is_placed = true;
        }
    }
    if !is_placed {
        terms.push(Coeff { x: y, c })?;
    }
    Ok(terms)
}
