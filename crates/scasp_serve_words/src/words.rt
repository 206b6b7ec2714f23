//! The words of a line.
ghost use Rattle.std.specs.Prelude.{◌≡◌, ◌==◌};
ghost use Rattle.std.specs.List.{position_or_len};
ghost use Rattle.scasp_command_words.specs.Numbers.{number_between as spec_number};
ghost use Rattle.scasp_serve_words.specs.Commands as spec;

use scasp_command_words::number_between;

/// How many bytes stand before the first such one; all where there is none.
pub(crate) fn place_of(byte: u8, bytes: &[u8]) -> usize
    ensures { result ≡ position_or_len (λ b. b == byte) bytes.now }
{
    bytes.iter().take_while(|b| **b != byte).count()
}

/// What stands before the first blank.
pub(crate) fn first_word(text: &[u8]) -> &[u8]
    ensures { result.now ≡ spec.first_word text.now }
{
    &text[..place_of(b' ', text)]
}

/// What stands behind the first blank; nothing where there is none.
pub(crate) fn behind_word(text: &[u8]) -> &[u8]
    ensures { result.now ≡ spec.behind_word text.now }
{
    let at = place_of(b' ', text);
    if at < text.len() {
        &text[at + 1..]
    } else {
        &[]
    }
}

/// The number that the word spells, where it is from `least` to `most`.
pub(crate) fn number_in(least: u64, most: u64, word: &[u8]) -> Option<u64>
    ensures { result ≡ spec_number least most word.now }
{
    match str::from_utf8(word) {
        Ok(text) => number_between(least, most, text),
        Err(_) => None,
    }
}
