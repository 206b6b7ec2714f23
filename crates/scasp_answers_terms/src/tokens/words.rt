//! Words.
ghost use Rattle.std.specs.Prelude.{◌≡◌, ◌<◌, ◌≤◌, true, length, slice_index};
ghost use Rattle.std.specs.List.{list_all, prefix_len, take_while};
ghost use Rattle.scasp_cert.specs.Text.Names as spec;
ghost use Rattle.scasp_reader_tokens.specs.Bytes.{is_lower, is_name_byte};
ghost use Rattle.scasp_answers_terms.specs.Tokens.Tokens.{word_front};
ghost use Rattle.scasp_answers_terms.specs.Tokens.View.{front_of};

use crate::tokens::token::{Front, Token};
use std::str;

pub fn is_lower(byte: u8) -> bool
    ensures { result ≡ is_lower byte }
{
    byte.is_ascii_lowercase()
}

fn is_name_byte(byte: u8) -> bool
    ensures { result ≡ is_name_byte byte }
{
    is_lower(byte) || matches!(byte, b'A'..=b'Z' | b'0'..=b'9' | b'_')
}

fn name_len(bytes: &[u8]) -> usize
    ensures { result ≡ prefix_len is_name_byte bytes.now }
{
    bytes.iter().take_while(|b| is_name_byte(**b)).count()
}

/// The text at the front that may stand in a name.
fn name_at(bytes: &[u8]) -> &str
    ensures text { result.now ≡ take_while is_name_byte bytes.now }
    ensures within { length result.now ≤ length bytes.now }
{
    unsafe { str::from_utf8_unchecked(&bytes[..name_len(bytes)]) }
}

/// The token of a word.
pub fn word_front(bytes: &[u8]) -> Front<'_>
    requires { 0 < length bytes.now }
    ensures within { result.more < length bytes.now }
    ensures front { front_of result ≡ word_front (take_while is_name_byte bytes.now) }
{
    let text = name_at(bytes);
    Front {
        token: Token::Word(text),
        more: text.len().saturating_sub(1),
    }
}

/// Whether the text needs no quotes.
pub fn is_plain(text: &str) -> bool
    ensures { result ≡ spec.is_plain text.now }
{
    is_word(text.as_bytes()) && text != "not"
}

fn is_word(text: &[u8]) -> bool
    ensures { result ≡ spec.is_word text.now }
{
    match text.split_first() {
        None => false,
        Some((first, rest)) => is_lower(*first) && are_word_bytes(rest),
    }
}

fn are_word_bytes(text: &[u8]) -> bool
    ensures { result ≡ list_all spec.is_word_byte text.now }
{
    text.iter().all(|b| is_name_byte(*b))
}
