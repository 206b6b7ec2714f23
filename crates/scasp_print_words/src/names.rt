//! Names, in quotes where they need them.
ghost use Rattle.std.specs.Prelude.{◌≡◌, ◌++◌, OnOk};
ghost use Rattle.std.specs.List.{list_all};
ghost use Rattle.scasp_cert.specs.Text.Names as spec;
ghost use Rattle.scasp_cert.specs.Text.Terms.{is_pair};

use crate::texts::put;
use scasp_name::{Memory, NIL, NameId, Names, PAIR};
use scasp_syntax::Terms;

fn is_word_byte(byte: u8) -> bool
    ensures { result ≡ spec.is_word_byte byte }
{
    byte.is_ascii_lowercase() || byte.is_ascii_uppercase() || byte.is_ascii_digit() || byte == b'_'
}

fn are_word_bytes(text: &[u8]) -> bool
    ensures { result ≡ list_all spec.is_word_byte text.now }
{
    for byte in text {
        if !is_word_byte(*byte) {
            return false;
        }
    }
    true
}

fn is_word(text: &[u8]) -> bool
    ensures { result ≡ spec.is_word text.now }
{
    match text.split_first() {
        None => false,
        Some((first, rest)) => first.is_ascii_lowercase() && are_word_bytes(rest),
    }
}

fn is_plain(text: &str) -> bool
    ensures { result ≡ spec.is_plain text.now }
{
    is_word(text.as_bytes()) && text != "not"
}

fn put_escaped(out: &mut Vec<u8>, byte: u8) -> Result<(), Memory>
    ensures { OnOk result (out.new.items ≡ out.old.items ++ spec.escaped byte) }
{
    match byte {
        b'\'' => put(out, "\\'"),
        b'\\' => put(out, "\\\\"),
        b'\n' => put(out, "\\n"),
        b'\t' => put(out, "\\t"),
        _ => {
            out.push(byte)?;
            Ok(())
        }
    }
}

fn put_quoted(out: &mut Vec<u8>, text: &str) -> Result<(), Memory>
    ensures { OnOk result (out.new.items ≡ out.old.items ++ spec.quoted_text text.now) }
{
    if is_plain(text) {
        return put(out, text);
    }
    put(out, "'")?;
    for byte in text.as_bytes() {
        put_escaped(out, *byte)?;
    }
    put(out, "'")
}

/// The text of a name; the empty text where the table lacks it.
pub fn text_at(names: &Names, name: NameId) -> &str
    ensures { result.now ≡ spec.text_at names.now name }
{
    if name.place() < names.len() {
        names.text(name)
    } else {
        ""
    }
}

/// Puts a name at the end.
pub fn put_name(out: &mut Vec<u8>, names: &Names, name: NameId) -> Result<(), Memory>
    ensures { OnOk result (out.new.items ≡ out.old.items ++ spec.name_text names.now name) }
{
    put_quoted(out, text_at(names, name))
}

/// Puts a name without arguments at the end, as a term.
pub fn put_constant(out: &mut Vec<u8>, names: &Names, name: NameId) -> Result<(), Memory>
    ensures { OnOk result (out.new.items ≡ out.old.items ++ spec.constant_text names.now name) }
{
    if name == NIL {
        put(out, "[]")
    } else {
        put_name(out, names, name)
    }
}

/// Whether a term of this name and these arguments is a list of a first element and a rest.
pub fn is_pair(name: NameId, args: &Terms) -> bool
    ensures { result ≡ is_pair name args.now }
{
    name == PAIR && args.len() == 2
}
