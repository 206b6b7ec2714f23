//! Numbers as words.
ghost use Rattle.std.specs.Prelude.{◌≡◌, ◌≤◌, IfSome, IsTrue};
ghost use Rattle.scasp_command_words.specs.Numbers as spec;

/// The most digits of a number.
const DIGITS: usize = 10;

fn are_digits(bytes: &[u8]) -> bool
    ensures { result ≡ spec.are_digits bytes.now }
{
    bytes.iter().all(|b| b.is_ascii_digit())
}

/// Whether the word is `0`, or one to ten digits without a leading zero.
fn is_number(word: &[u8]) -> bool
    ensures { result ≡ spec.is_number word.now }
{
    match word {
        [] => false,
        [digit] => digit.is_ascii_digit(),
        [first, ..] => *first != b'0' && word.len() <= DIGITS && are_digits(word),
    }
}

/// The number that the word spells, where it is from `least` to `most`.
pub fn number_between(least: u64, most: u64, word: &str) -> Option<u64>
    ensures value { result ≡ spec.number_between least most word.now }
    ensures within { IfSome result (λ number. number ≤ most) }
{
    if !is_number(word.as_bytes()) {
        return None;
    }
    let number = value(word);
    if least <= number && number <= most {
        Some(number)
    } else {
        None
    }
}

/// The number that the digits spell.
fn value(word: &str) -> u64
    requires { IsTrue (spec.is_number word.now) }
    ensures { result ≡ spec.value word.now }
{
    word.parse().unwrap_or(0)
}
