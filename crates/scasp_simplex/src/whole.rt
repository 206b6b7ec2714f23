//! Whole numbers, of which those that are too large are refused.
use crate::stop::Stop;
use scasp_num::Rat;
use scasp_num::rational::gcd;

pub(crate) fn product(a: i128, b: i128) -> Result<i128, Stop> {
    a.checked_mul(b).ok_or(Stop::Lost)
}

pub(crate) fn sum(a: i128, b: i128) -> Result<i128, Stop> {
    a.checked_add(b).ok_or(Stop::Lost)
}

/// The quotient, rounded toward 0. That by 0 is refused.
pub(crate) fn quotient(a: i128, by: i128) -> Result<i128, Stop> {
    a.checked_div(by).ok_or(Stop::Lost)
}

pub(crate) fn negation(a: i128) -> Result<i128, Stop> {
    a.checked_neg().ok_or(Stop::Lost)
}

/// The greatest common divisor, by numbers of 64 bits where these serve.
pub(crate) fn common_divisor(a: i128, b: i128) -> Result<i128, Stop> {
    let (a, b) = (a.unsigned_abs(), b.unsigned_abs());
    if let (Ok(a), Ok(b)) = (u64::try_from(a), u64::try_from(b)) {
        return Ok(i128::from(divisor_of_short(a, b)));
    }
    i128::try_from(gcd(a, b)).map_err(|_| Stop::Lost)
}

/// Euclid's algorithm (Elements, book VII).
fn divisor_of_short(a: u64, b: u64) -> u64 {
    let mut x = a;
    let mut y = b;
    while y != 0 {
        let rest = x % y;
        x = y;
        y = rest;
    }
    x
}

/// The least common multiple of two numbers above 0.
pub(crate) fn common_multiple(a: i128, b: i128) -> Result<i128, Stop> {
    let shared = common_divisor(a, b)?;
    product(a, quotient(b, shared)?)
}

/// The fraction; one over 0 is refused.
pub(crate) fn fraction(num: i128, den: i128) -> Result<Rat, Stop> {
    if den == 0 {
        return Err(Stop::Lost);
    }
    Ok(Rat::new(num, den)?)
}
