//! The classes of bytes, and runs of them.
ghost use Rattle.std.specs.Prelude.{◌≡◌, ◌<◌, ◌≤◌, true, length, drop, slice_index};
ghost use Rattle.std.specs.List.{prefix_len, take_while};
ghost use Rattle.scasp_reader_tokens.specs.Bytes.{is_blank, is_lower, is_upper, is_digit, is_name_byte};

use std::str;

pub fn is_blank(byte: u8) -> bool
    ensures { result ≡ is_blank byte }
{
    matches!(byte, b' ' | b'\t' | b'\n' | b'\r')
}

pub fn is_lower(byte: u8) -> bool
    ensures { result ≡ is_lower byte }
{
    byte.is_ascii_lowercase()
}

pub fn is_upper(byte: u8) -> bool
    ensures { result ≡ is_upper byte }
{
    byte.is_ascii_uppercase()
}

pub fn is_digit(byte: u8) -> bool
    ensures { result ≡ is_digit byte }
{
    byte.is_ascii_digit()
}

fn is_name_byte(byte: u8) -> bool
    ensures { result ≡ is_name_byte byte }
{
    matches!(byte, b'a'..=b'z' | b'A'..=b'Z' | b'0'..=b'9' | b'_')
}

fn name_len(bytes: &[u8]) -> usize
    ensures { result ≡ prefix_len is_name_byte bytes.now }
{
    bytes.iter().take_while(|b| is_name_byte(**b)).count()
}

/// The text at the front that may stand in a name.
pub fn name_at(bytes: &[u8]) -> &str
    ensures text { result.now ≡ take_while is_name_byte bytes.now }
    ensures within { length result.now ≤ length bytes.now }
    ensures some { 0 < length bytes.now → is_name_byte (slice_index bytes.now 0) ≡ true → 0 < length result.now }
{
    match str::from_utf8(&bytes[..name_len(bytes)]) {
        Ok(text) => text,
        Err(_) => unreachable!(),
    }
}

fn digits_len(bytes: &[u8]) -> usize
    ensures { result ≡ prefix_len is_digit bytes.now }
{
    bytes.iter().take_while(|b| is_digit(**b)).count()
}

/// The digits at the front.
pub fn digits(bytes: &[u8]) -> &[u8]
    ensures text { result.now ≡ take_while is_digit bytes.now }
    ensures within { length result.now ≤ length bytes.now }
    ensures some { 0 < length bytes.now → is_digit (slice_index bytes.now 0) ≡ true → 0 < length result.now }
{
    &bytes[..digits_len(bytes)]
}

/// The bytes from a place on.
pub fn behind(bytes: &[u8], at: usize) -> &[u8]
    requires { at ≤ length bytes.now }
    ensures { result.now ≡ drop at bytes.now }
{
    &bytes[at..]
}
