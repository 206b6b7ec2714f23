//! Integers from -M to M, where M is 2^127 - 1.
ghost use Rattle.std.specs.Prelude.{◌≡◌, ◌<◌, pos, ◌+ℤ◌, ◌*ℤ◌, int_div, IfOk};
ghost use Rattle.std.specs.Result.{result_ok};
ghost use Rattle.scasp_num.specs.Arithmetic.{within, signed};
ghost use Rattle.scasp_num.specs.Number.{InRange};

use crate::rational::Overflow;

/// The integer of a sign and a size.
pub(crate) fn signed(negative: bool, size: u128) -> Result<i128, Overflow>
    ensures value { result_ok result ≡ within (signed negative size) }
    ensures range { IfOk result InRange }
{
    if size > i128::MAX as u128 {
        return Err(Overflow);
    }
    let value = size as i128;
    if negative { Ok(-value) } else { Ok(value) }
}

pub(crate) fn product(a: i128, b: i128) -> Result<i128, Overflow>
    ensures value { result_ok result ≡ within (a *ℤ b) }
    ensures range { IfOk result InRange }
{
    match a.checked_mul(b) {
        Some(value) if value != i128::MIN => Ok(value),
        _ => Err(Overflow),
    }
}

pub(crate) fn sum(a: i128, b: i128) -> Result<i128, Overflow>
    ensures value { result_ok result ≡ within (a +ℤ b) }
    ensures range { IfOk result InRange }
{
    match a.checked_add(b) {
        Some(value) if value != i128::MIN => Ok(value),
        _ => Err(Overflow),
    }
}

/// `n` divided by a number above 0, rounded toward 0.
pub(crate) fn quotient(n: i128, by: u128) -> i128
    requires above { 0 < by }
    requires range { InRange n }
    ensures value { result ≡ int_div n (pos by) }
    ensures range { InRange result }
{
    let size = (n.unsigned_abs() / by) as i128;
    if n < 0 { -size } else { size }
}
