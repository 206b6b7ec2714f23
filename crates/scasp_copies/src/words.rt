//! The words of a line, as bytes.
ghost use Rattle.std.specs.Prelude.{◌≡◌, ◌-◌, ◌^◌, ◌≤◌, ◌||◌, min, length, reverse, codes};
ghost use Rattle.std.specs.List.{prefix_len};
ghost use Rattle.scasp_copies.specs.Copies as spec;

/// Whether the words begin with the text.
#[tactic(auto, using(crate::proofs::WordLemmas::begins_is))]
fn begins(words: &[u8], text: &[u8]) -> bool
    ensures { result ≡ spec.begins text.now words.now }
{
    words.starts_with(text)
}

/// Whether the words are a call that rules or cases explain.
pub fn is_call(words: &[u8]) -> bool
    ensures { result ≡ (spec.begins (codes "pos ") words.now || spec.begins (codes "neg ") words.now) }
{
    begins(words, b"pos ") || begins(words, b"neg ")
}

/// Whether the words are those of a line `copy N`, whatever stands behind the blank.
pub fn is_copy(words: &[u8]) -> bool
    ensures { result ≡ spec.begins (codes "copy ") words.now }
{
    begins(words, b"copy ")
}

/// Whether the words have the number of a line at their end.
pub fn names_line(words: &[u8]) -> bool
    ensures { result ≡ spec.names_line words.now }
{
    begins(words, b"loop ") || begins(words, b"seen ")
}

fn is_digit(byte: u8) -> bool
    ensures { result ≡ spec.is_digit byte }
{
    byte.is_ascii_digit()
}

/// How many digits stand at the end.
#[tactic(auto, using(crate::proofs::WordLemmas::digits_within))]
fn count_digits(words: &[u8]) -> usize
    ensures count { result ≡ prefix_len spec.is_digit (reverse words.now) }
    ensures within { result ≤ length words.now }
{
    words.iter().rev().take_while(|b| is_digit(**b)).count()
}

/// Where the digits at the end begin.
#[tactic(auto, using(crate::proofs::WordLemmas::last_length))]
fn digits_start(words: &[u8]) -> usize
    ensures place { result ≡ length words.now - length (spec.last_digits words.now) }
    ensures within { result ≤ length words.now }
{
    words.len() - count_digits(words)
}

/// The words before the digits at their end.
pub fn before_digits(words: &[u8]) -> &[u8]
    ensures { result.now ≡ spec.before_digits words.now }
{
    &words[..digits_start(words)]
}

/// The digits at the end.
#[tactic(auto, using(crate::proofs::WordLemmas::last_rest))]
fn last_digits(words: &[u8]) -> &[u8]
    ensures { result.now ≡ spec.last_digits words.now }
{
    &words[digits_start(words)..]
}

/// The number at the end; the largest `u128` where it is larger.
pub fn last_number(words: &[u8]) -> u128
    ensures { result ≡ min (spec.last_number words.now) (2 ^ 128 - 1) }
{
    let digits = last_digits(words);
    let mut value: u128 = 0;
    for digit in digits {
        value = value
            .saturating_mul(10)
            .saturating_add(digit.saturating_sub(b'0') as u128);
    }
    value
}
