//! The words of a line.
ghost use Rattle.std.specs.Prelude.{◌≡◌, ◌+◌, ◌-◌, ◌*◌, ◌<◌, ◌≤◌, ◌^◌, length, reverse, SomeIff};
ghost use Rattle.std.specs.List.{prefix_len};
ghost use Rattle.scasp_copies.specs.Copies as spec;
ghost use Rattle.scasp_print_shared.specs.Inside.Classes.{stem};
ghost use Rattle.scasp_reader_tokens.specs.Numbers.{digits_value};

/// Whether the text begins with the first.
pub(crate) fn begins(text: &[u8], first: &[u8]) -> bool
    ensures { result ≡ spec.begins first.now text.now }
{
    text.starts_with(first)
}

/// Whether a line number stands at the end of the words.
pub(crate) fn names_line(words: &[u8]) -> bool
    ensures { result ≡ spec.names_line words.now }
{
    begins(words, b"loop ") || begins(words, b"seen ")
}

/// The number of digits at the end.
fn count_digits(words: &[u8]) -> usize
    ensures { result ≡ prefix_len spec.is_digit (reverse words.now) }
{
    words
        .iter()
        .rev()
        .take_while(|byte| **byte >= b'0' && **byte <= b'9')
        .count()
}

/// The number of bytes before the digits at the end.
fn count_before_digits(words: &[u8]) -> usize
    ensures count { result ≡ length words.now - length (spec.last_digits words.now) }
    ensures within { result ≤ length words.now }
{
    words.len() - count_digits(words)
}

/// The words before the digits at the end.
pub(crate) fn before_digits(words: &[u8]) -> &[u8]
    ensures { result.now ≡ spec.before_digits words.now }
{
    &words[..count_before_digits(words)]
}

/// The number with a digit more, where it is below 2^64.
fn with_digit(number: u64, digit: u8) -> Option<u64>
    ensures { SomeIff result (10 * number + (digit - 48) < 2 ^ 64) (10 * number + (digit - 48)) }
{
    match number.checked_mul(10) {
        None => None,
        Some(tens) => tens.checked_add(u64::from(digit.saturating_sub(b'0'))),
    }
}

/// The number that these digits spell, where it is below 2^64.
fn number_in(digits: &[u8]) -> Option<u64>
    ensures { SomeIff result (digits_value 0 digits.now < 2 ^ 64) (digits_value 0 digits.now) }
{
    let mut number = 0u64;
    for digit in digits {
        match with_digit(number, *digit) {
            None => return None,
            Some(next) => number = next,
        }
    }
    Some(number)
}

/// The number at the end of the words, where it is below 2^64.
pub(crate) fn last_number(words: &[u8]) -> Option<u64>
    ensures { SomeIff result (spec.last_number words.now < 2 ^ 64) (spec.last_number words.now) }
{
    number_in(&words[count_before_digits(words)..])
}

/// The words without a line number at their end.
pub(crate) fn stem(words: &[u8]) -> &[u8]
    ensures { result.now ≡ stem words.now }
{
    if names_line(words) {
        before_digits(words)
    } else {
        words
    }
}
