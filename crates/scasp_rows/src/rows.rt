//! Tests of rows, and the coefficients of a variable.
ghost use Rattle.std.specs.Prelude.{◌≡◌, ◌<◌};
ghost use Rattle.std.specs.List.{list_any};
ghost use Rattle.scasp_num.specs.Number.{InRange};
ghost use Rattle.scasp_num.specs.SameRow.{same_row};
ghost use Rattle.scasp_rows.specs.Points.{is_constant, is_false};
ghost use Rattle.scasp_rows.specs.Elimination.{against, factor, has_sign, share, size_over, solves};

use crate::state::{Sign, Standing};
use scasp_num::Row;
use scasp_num::rational::gcd;

/// Whether the row has no variable.
pub(crate) fn is_constant(row: &Row) -> bool
    ensures { result ≡ is_constant row.now }
{
    row.coeffs().as_slice().is_empty()
}

/// Whether the row has no variable, and is met by no point.
pub fn is_false(row: &Row) -> bool
    ensures { result ≡ is_false row.now }
{
    is_constant(row) && !row.op().compares(row.constant())
}

/// Whether the row is among those.
pub(crate) fn stands(rows: &[Standing], row: &Row) -> bool
    ensures { result ≡ list_any (λ o. same_row o.row row.now) rows.now }
{
    rows.iter().any(|o| o.row.is_same(row))
}

/// The coefficient of `x` in a row; 0 where it has none.
pub(crate) fn factor(x: u64, r: &Standing) -> i128
    ensures value { result ≡ factor x r.now }
    ensures range { InRange result }
{
    r.row.coefficient(x)
}

pub(crate) fn has_sign(sign: Sign, z: i128) -> bool
    ensures { result ≡ has_sign sign z }
{
    match sign {
        Sign::Below => z < 0,
        Sign::Zero => z == 0,
        Sign::Above => z > 0,
    }
}

/// Whether the row is an equation with `x`.
pub(crate) fn solves(x: u64, r: &Standing) -> bool
    ensures { result ≡ solves x r.now }
{
    r.row.op().is_equation() && factor(x, r) != 0
}

/// What two coefficients are divided by: their greatest common divisor, or 1 where both are 0.
pub(crate) fn share(a: i128, b: i128) -> u128
    ensures value { result ≡ share a b }
    ensures above { 0 < result }
{
    gcd(a.unsigned_abs(), b.unsigned_abs()).max(1)
}

/// `|a|`/`g`, rounded down.
pub(crate) fn size_over(a: i128, g: u128) -> i128
    requires above { 0 < g }
    requires range { InRange a }
    ensures value { result ≡ size_over a g }
    ensures range { InRange result }
{
    (a.unsigned_abs() / g) as i128
}

/// `b`/`g`, rounded toward 0, with the sign turned where `a` is not below 0.
pub(crate) fn against(a: i128, b: i128, g: u128) -> i128
    requires above { 0 < g }
    requires range { InRange b }
    ensures value { result ≡ against a b g }
    ensures range { InRange result }
{
    let size = size_over(b, g);
    if (a < 0) == (b < 0) { -size } else { size }
}
