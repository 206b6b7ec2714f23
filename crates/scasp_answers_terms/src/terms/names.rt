//! Names, by their places in a table.
ghost use Rattle.std.specs.Prelude.{◌≡◌, ◌≤◌, drop, length, IfOk};
ghost use Rattle.std.specs.Str.{IsUtf8};
ghost use Rattle.scasp_reader_tokens.specs.Quoted.{begins_pair, byte_of_escape, text_of};
ghost use Rattle.scasp_reader_terms.specs.Names.{place_in};
ghost use Rattle.scasp_answers_terms.specs.Tokens.Names.{name_at};
ghost use Rattle.scasp_answers_terms.specs.Tokens.View.{Reads};

use crate::tokens::{Cursor, Stop, Token};
use scasp_list::Memory;
use scasp_name::{NameId, Names};
use scasp_reader_tokens::Text;
use std::alloc::Global;

/// The place of the text in the table, or the one behind the table where it has not the text.
pub fn place(names: &Names, text: &str) -> NameId
    ensures { result ≡ place_in names.now text.now }
{
    let len = names.len();
    match names.find(text) {
        Some(name) => name,
        None => NameId::new(len),
    }
}

/// The bytes from this place on.
fn behind(bytes: &[u8], at: usize) -> &[u8]
    requires { at ≤ length bytes.now }
    ensures { result.now ≡ drop at bytes.now }
{
    &bytes[at..]
}

/// Whether two bytes stand here for one.
fn begins_pair(bytes: &[u8]) -> bool
    ensures { result ≡ begins_pair bytes.now }
{
    matches!(bytes, [b'\\', _, ..] | [b'\'', b'\'', ..])
}

/// What the byte stands for as the second of two.
fn byte_of_escape(byte: u8) -> u8
    ensures { result ≡ byte_of_escape byte }
{
    match byte {
        b'n' => b'\n',
        b't' => b'\t',
        _ => byte,
    }
}

/// The text that these bytes are between quotes.
fn unescaped_bytes(alloc: Global, bytes: &[u8]) -> Result<Text, Memory>
    requires { IsUtf8 bytes.now }
    ensures { IfOk result (λ text. text ≡ text_of bytes.now) }
{
    let mut text = Vec::new(alloc);
    let mut at = 0;
    while at < bytes.len() {
        let rest = behind(bytes, at);
        if begins_pair(rest) {
            text.push(byte_of_escape(rest[1]))?;
            at += 2;
        } else {
            text.push(rest[0])?;
            at += 1;
        }
    }
    Ok(Text::from_utf8(text))
}

/// The text that stands so between quotes.
pub fn unescaped(alloc: Global, quoted: &str) -> Result<Text, Memory>
    ensures { IfOk result (λ text. text ≡ text_of quoted.now) }
{
    unescaped_bytes(alloc, quoted.as_bytes())
}

/// The place of the text that stands so between quotes.
pub fn quoted_place(alloc: Global, names: &Names, quoted: &str) -> Result<NameId, Memory>
    ensures { IfOk result (λ name. name ≡ place_in names.now (text_of quoted.now)) }
{
    let text = unescaped(alloc, quoted)?;
    Ok(place(names, text.as_str()))
}

/// Takes a name, which must be next: a word that is not `not`, or a quoted text.
pub fn name(alloc: Global, cursor: &mut Cursor<'_>, names: &Names) -> Result<NameId, Stop>
    ensures { Reads (λ f. f) (name_at (place_in names.now) cursor.old) result cursor.new }
{
    let next = cursor.pop();
    if let Some(Token::Word(word)) = next {
        if word == "not" {
            return Err(Stop::NoForm);
        }
        return Ok(place(names, word));
    }
    let Some(Token::Quoted(quoted)) = next else {
        return Err(Stop::NoForm);
    };
    let name = quoted_place(alloc, names, quoted)?;
    Ok(name)
}
