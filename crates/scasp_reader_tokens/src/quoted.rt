//! Names in quotes.
ghost use Rattle.std.specs.Prelude.{◌≡◌, ◌<◌, ◌≤◌, length, IfOk, IfSome};
ghost use Rattle.std.specs.Str.{IsUtf8};
ghost use Rattle.std.specs.Str.Lossy.{utf8_valid_len};
ghost use Rattle.scasp_reader_tokens.specs.Quoted.{begins_pair, quoted_length, byte_of_escape, text_of, is_escape, length_before_bad, good_length};

use crate::bytes::behind;
use crate::text::Text;
use scasp_list::Memory;
use std::alloc::Global;
use std::str;

/// Whether two bytes stand here for one.
fn begins_pair(bytes: &[u8]) -> bool
    ensures { result ≡ begins_pair bytes.now }
{
    matches!(bytes, [b'\\', _, ..] | [b'\'', b'\'', ..])
}

/// The number of bytes before the quote that ends the name, where one does.
pub fn quoted_len(bytes: &[u8]) -> Option<usize>
    ensures length { result ≡ quoted_length bytes.now }
    ensures within { IfSome result (λ n. n < length bytes.now) }
{
    let mut at = 0;
    while at < bytes.len() {
        let rest = behind(bytes, at);
        if begins_pair(rest) {
            at += 2;
        } else if rest[0] == b'\'' {
            return Some(at);
        } else {
            at += 1;
        }
    }
    None
}

/// What the byte stands for as the second of two.
fn byte_of_escape(byte: u8) -> u8
    ensures { result ≡ byte_of_escape byte }
{
    match byte {
        b'n' => b'\n',
        b't' => b'\t',
        _ => byte,
    }
}

/// The text that the bytes between the quotes stand for.
pub fn unescaped(alloc: Global, bytes: &[u8]) -> Result<Text, Memory>
    requires { IsUtf8 bytes.now }
    ensures { IfOk result (λ text. text ≡ text_of bytes.now) }
{
    let mut text = Vec::new(alloc);
    let mut at = 0;
    while at < bytes.len() {
        let rest = behind(bytes, at);
        if begins_pair(rest) {
            text.push(byte_of_escape(rest[1]))?;
            at += 2;
        } else {
            text.push(rest[0])?;
            at += 1;
        }
    }
    Ok(Text::from_utf8(text))
}

/// Whether the byte may stand behind a backslash.
fn is_escape(byte: u8) -> bool
    ensures { result ≡ is_escape byte }
{
    matches!(byte, b'\'' | b'\\' | b'n' | b't')
}

/// The number of bytes before the first backslash that is no escape, where there is one.
fn len_before_bad(bytes: &[u8]) -> Option<usize>
    ensures length { result ≡ length_before_bad bytes.now }
    ensures within { IfSome result (λ n. n < length bytes.now) }
{
    let mut at = 0;
    while at < bytes.len() {
        let rest = behind(bytes, at);
        if !begins_pair(rest) {
            at += 1;
        } else if is_escape(rest[1]) {
            at += 2;
        } else {
            return Some(at);
        }
    }
    None
}

/// The number of bytes at the front that are UTF-8.
fn valid_len(bytes: &[u8]) -> usize
    ensures length { result ≡ utf8_valid_len bytes.now }
    ensures within { result ≤ length bytes.now }
    ensures utf8 { result ≡ length bytes.now → IsUtf8 bytes.now }
{
    match str::from_utf8(bytes) {
        Ok(text) => text.len(),
        Err(error) => error.valid_up_to(),
    }
}

/// The number of bytes at the front that are UTF-8 without a bad backslash.
pub fn good_len(bytes: &[u8]) -> usize
    ensures length { result ≡ good_length bytes.now }
    ensures within { result ≤ length bytes.now }
    ensures utf8 { result ≡ length bytes.now → IsUtf8 bytes.now }
{
    let valid = valid_len(bytes);
    match len_before_bad(bytes) {
        Some(bad) => bad.min(valid),
        None => valid,
    }
}
