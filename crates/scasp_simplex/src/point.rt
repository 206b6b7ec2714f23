//! The test of a point at rows.
ghost use Rattle.std.specs.Prelude.{◌≡◌, ◌+ℤ◌, ◌*ℤ◌, ◌<ℤ◌, IfSome, IsTrue, pos};
ghost use Rattle.scasp_list.specs.Each.{Each};
ghost use Rattle.scasp_num.specs.Linear.{Meets};
ghost use Rattle.scasp_rows.specs.Points.{IsMet};
ghost use Rattle.scasp_simplex.specs.Inside.Numerators.{numerator, sum_at, summed};

use scasp_num::{Coeff, Row};
use std::collections::HashMap;

/// A point whose values are whole numbers over one denominator; a variable that has none is 0.
#[derive(Drop)]
pub(crate) struct Point {
    pub(crate) numerators: HashMap<u64, i128>,
    pub(crate) denominator: i128,
}

fn numerator(point: &Point, x: u64) -> i128
    ensures { result ≡ numerator point.now x }
{
    match point.numerators.get(&x) {
        Some(n) => *n,
        None => 0,
    }
}

/// The sum with the product of a term.
fn plus_term(point: &Point, sum: i128, k: &Coeff) -> Option<i128>
    ensures { IfSome result (λ z. z ≡ sum +ℤ k.now.c *ℤ numerator point.now k.now.x) }
{
    let product = k.c.checked_mul(numerator(point, k.x))?;
    sum.checked_add(product)
}

/// The sum with the products of all terms.
fn summed(point: &Point, terms: &[Coeff], start: i128) -> Option<i128>
    ensures { IfSome result (λ z. z ≡ summed point.now terms.now start) }
{
    let mut sum = start;
    for k in terms {
        sum = plus_term(point, sum, k)?;
    }
    Some(sum)
}

/// The row's constant, times the denominator.
fn constant_at(point: &Point, row: &Row) -> Option<i128>
    ensures { IfSome result (λ z. z ≡ row.now.constant *ℤ point.now.denominator) }
{
    row.constant().checked_mul(point.denominator)
}

/// The row's sum at the point, times the denominator.
fn sum_at(point: &Point, row: &Row) -> Option<i128>
    ensures { IfSome result (λ z. z ≡ sum_at point.now row.now) }
{
    let constant = constant_at(point, row)?;
    summed(point, row.coeffs().as_slice(), constant)
}

/// Whether the row is seen to be met.
#[tactic(auto, using(crate::proofs::PointLemmas::sum_meets))]
fn meets(point: &Point, row: &Row) -> bool
    ensures { IsTrue result → Meets (numerator point.now) point.now.denominator row.now }
{
    match sum_at(point, row) {
        Some(sum) => row.op().compares(sum),
        None => false,
    }
}

/// Whether all rows are seen to be met.
fn meets_each(point: &Point, rows: &[Row]) -> bool
    ensures { IsTrue result → Each (Meets (numerator point.now) point.now.denominator) rows.now }
{
    for row in rows {
        if !meets(point, row) {
            return false;
        }
    }
    true
}

/// Whether the denominator is above 0.
fn has_denominator(point: &Point) -> bool
    ensures { IsTrue result → pos 0 <ℤ point.now.denominator }
{
    point.denominator > 0
}

/// Whether the point is seen to be one that meets all rows.
pub(crate) fn meets_all(point: &Point, rows: &[Row]) -> bool
    ensures { IsTrue result → IsMet rows.now }
{
    has_denominator(point) && meets_each(point, rows)
}

/// Whether the last row is seen to be met.
pub(crate) fn meets_last(point: &Point, rows: &[Row]) -> bool {
    match rows.last() {
        Some(row) => meets(point, row),
        None => true,
    }
}
