//! Numbers.
ghost use Rattle.std.specs.Prelude.{◌≡◌, ◌≢◌, ◌-◌, ◌^◌, ◌<◌, ◌++◌, pos, min, length, IfSome};
ghost use Rattle.scasp_num.specs.Arithmetic.{within};
ghost use Rattle.scasp_reader_tokens.specs.Numbers.{decimals, digits_value, literal_value};

use crate::bytes::digits;
use scasp_num::Rat;

/// The digits behind a decimal point.
pub fn decimals(bytes: &[u8]) -> &[u8]
    ensures digits { result.now ≡ decimals bytes.now }
    ensures within { 0 < length result.now → length result.now < length bytes.now }
{
    match bytes {
        [b'.', rest @ ..] => digits(rest),
        _ => &[],
    }
}

/// The number that the digits spell behind those that spell `start`; the largest `u128` where it is
/// at least as large.
fn spelled(start: u128, digits: &[u8]) -> u128
    ensures { result ≡ min (digits_value start digits.now) (2 ^ 128 - 1) }
{
    let mut value = start;
    for digit in digits {
        value = value
            .saturating_mul(10)
            .saturating_add(digit.saturating_sub(b'0') as u128);
    }
    value
}

/// 10 times itself so often; the largest `u128` where it is at least as large.
fn power_of_ten(count: usize) -> u128
    ensures value { result ≡ min (10 ^ count) (2 ^ 128 - 1) }
    ensures above { 0 < result }
{
    let mut value: u128 = 1;
    for _place in 0..count {
        value = value.saturating_mul(10);
    }
    value
}

/// The integer, where it is at most M.
fn within(size: u128) -> Option<i128>
    ensures { result ≡ within (pos size) }
{
    if size > i128::MAX as u128 {
        return None;
    }
    Some(size as i128)
}

/// The number that all the digits spell, where it is at most M.
fn all_digits(whole: &[u8], part: &[u8]) -> Option<i128>
    ensures { result ≡ within (pos (digits_value 0 (whole.now ++ part.now))) }
{
    within(spelled(spelled(0, whole), part))
}

/// 10 times itself so often, where it is at most M.
fn all_places(count: usize) -> Option<i128>
    ensures value { result ≡ within (pos (10 ^ count)) }
    ensures above { IfSome result (λ d. d ≢ pos 0) }
{
    within(power_of_ten(count))
}

/// The number of the digits before and behind the point, where it is not too large.
#[tactic(auto, unfolding(crate::specs::Numbers::literal_value))]
pub fn literal(whole: &[u8], part: &[u8]) -> Option<Rat>
    ensures { result ≡ literal_value whole.now part.now }
{
    let digits = all_digits(whole, part)?;
    let places = all_places(part.len())?;
    Rat::new(digits, places).ok()
}
