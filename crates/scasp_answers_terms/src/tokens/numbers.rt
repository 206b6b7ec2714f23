//! Digits.
ghost use Rattle.std.specs.Prelude.{◌≡◌, ◌<◌, ◌≤◌, ◌+◌, ◌-◌, length};
ghost use Rattle.std.specs.List.{prefix_len, take_while};
ghost use Rattle.scasp_reader_tokens.specs.Bytes.{is_digit};
ghost use Rattle.scasp_answers_terms.specs.Tokens.Tokens.{value_of, is_numeral, digits_at, digits_below, number_front, variable_front};
ghost use Rattle.scasp_answers_terms.specs.Tokens.View.{front_of};

use crate::tokens::token::{Front, Token};

fn is_digit(byte: u8) -> bool
    ensures { result ≡ is_digit byte }
{
    byte.is_ascii_digit()
}

fn digits_len(bytes: &[u8]) -> usize
    ensures { result ≡ prefix_len is_digit bytes.now }
{
    bytes.iter().take_while(|b| is_digit(**b)).count()
}

/// The digits at the front.
pub fn digits_at(bytes: &[u8]) -> &[u8]
    ensures text { result.now ≡ digits_at bytes.now }
    ensures within { length result.now ≤ length bytes.now }
{
    &bytes[..digits_len(bytes)]
}

/// The digits behind a slash.
pub fn digits_below(bytes: &[u8]) -> &[u8]
    ensures digits { result.now ≡ digits_below bytes.now }
    ensures within { 0 < length result.now → length result.now < length bytes.now }
{
    match bytes {
        [b'/', rest @ ..] => digits_at(rest),
        _ => &[],
    }
}

/// The number that the digits spell; the largest `u128` where it is larger.
fn value_of(digits: &[u8]) -> u128
    ensures { result ≡ value_of digits.now }
{
    let mut value: u128 = 0;
    for digit in digits {
        value = value
            .saturating_mul(10)
            .saturating_add(digit.saturating_sub(b'0') as u128);
    }
    value
}

/// Whether a number is written so: there are digits, and no 0 in front.
fn is_numeral(digits: &[u8]) -> bool
    ensures { result ≡ is_numeral digits.now }
{
    match digits {
        [] => false,
        [_] => true,
        [first, ..] => *first != b'0',
    }
}

/// Digits, and where others stand behind a slash the fraction.
pub fn number_front<'a>(whole: &[u8], below: &[u8]) -> Front<'a>
    ensures front { front_of result ≡ number_front whole.now below.now }
    ensures within { result.more ≤ length whole.now + length below.now }
    ensures digits { length below.now ≡ 0 → result.more ≤ length whole.now - 1 }
{
    let bad = Front {
        token: Token::Bad,
        more: 0,
    };
    if !is_numeral(whole) {
        return bad;
    }
    if below.is_empty() {
        return Front {
            token: Token::Digits(value_of(whole)),
            more: whole.len() - 1,
        };
    }
    if !is_numeral(below) {
        return bad;
    }
    Front {
        token: Token::Fraction(value_of(whole), value_of(below)),
        more: whole.len() + below.len(),
    }
}

/// The token of a variable's `V` and its digits.
pub fn variable_front<'a>(digits: &[u8]) -> Front<'a>
    ensures front { front_of result ≡ variable_front digits.now }
    ensures within { result.more ≤ length digits.now }
{
    if !is_numeral(digits) {
        return Front {
            token: Token::Bad,
            more: 0,
        };
    }
    Front {
        token: Token::Variable(value_of(digits)),
        more: digits.len(),
    }
}
