//! What bytes begin with: one function for each kind of token.
ghost use Rattle.std.specs.Prelude.{◌≡◌, ◌<◌, ◌+◌, true, length, slice_index, IfOk};
ghost use Rattle.scasp_reader_tokens.specs.Bytes.{is_digit, is_name_byte};
ghost use Rattle.scasp_reader_tokens.specs.Tokens.{block_comment, word, variable, between_quotes, quoted_name, number, skipped_directive, directive, sign_or_directive, front, IsWithin};

use crate::bytes::{behind, digits, is_blank, is_digit, is_lower, is_upper, name_at};
use crate::comments::{block_len, line_len};
use crate::directives::{begins_directive, is_abducible_name, is_skipped_name, len_to_stop};
use crate::numbers::{decimals, literal};
use crate::quoted::{good_len, quoted_len, unescaped};
use crate::sign::sign_at;
use crate::text::Text;
use crate::token::{Front, Token};
use scasp_list::Memory;
use std::alloc::Global;

/// What the bytes begin with.
pub fn front(alloc: Global, bytes: &[u8]) -> Result<Front, Memory>
    ensures front { IfOk result (λ f. f ≡ front bytes.now) }
    ensures within { IfOk result (IsWithin (length bytes.now)) }
{
    let Some(first) = bytes.first().copied() else {
        return Ok(Front::Last(Token::End, 0));
    };
    if is_blank(first) {
        Ok(Front::Gap(1))
    } else if first == b'%' {
        Ok(Front::Gap(line_len(bytes)))
    } else if bytes.starts_with(b"/*") {
        Ok(block_comment(bytes))
    } else if is_lower(first) {
        word(alloc, bytes)
    } else if first == b'\'' {
        quoted_name(alloc, bytes)
    } else if is_upper(first) || first == b'_' {
        variable(alloc, bytes)
    } else if is_digit(first) {
        Ok(number(bytes))
    } else {
        Ok(sign_or_directive(bytes))
    }
}

fn block_comment(bytes: &[u8]) -> Front
    ensures front { result ≡ block_comment bytes.now }
    ensures within { IsWithin (length bytes.now) result }
{
    match block_len(bytes) {
        None => Front::Last(Token::Unclosed, 0),
        Some(len) => Front::Gap(len),
    }
}

fn word(alloc: Global, bytes: &[u8]) -> Result<Front, Memory>
    requires some { 0 < length bytes.now }
    requires begins { is_name_byte (slice_index bytes.now 0) ≡ true }
    ensures front { IfOk result (λ f. f ≡ word bytes.now) }
    ensures within { IfOk result (IsWithin (length bytes.now)) }
{
    let text = name_at(bytes);
    if text == "not" {
        return Ok(Front::Found(Token::Not, text.len()));
    }
    let name = Text::from_str(alloc, text)?;
    Ok(Front::Found(Token::Name(name), text.len()))
}

fn variable(alloc: Global, bytes: &[u8]) -> Result<Front, Memory>
    requires some { 0 < length bytes.now }
    requires begins { is_name_byte (slice_index bytes.now 0) ≡ true }
    ensures front { IfOk result (λ f. f ≡ variable bytes.now) }
    ensures within { IfOk result (IsWithin (length bytes.now)) }
{
    let text = name_at(bytes);
    let name = Text::from_str(alloc, text)?;
    Ok(Front::Found(Token::Variable(name), text.len()))
}

fn quoted_name(alloc: Global, bytes: &[u8]) -> Result<Front, Memory>
    requires { 0 < length bytes.now }
    ensures front { IfOk result (λ f. f ≡ quoted_name bytes.now) }
    ensures within { IfOk result (IsWithin (length bytes.now)) }
{
    let name = behind(bytes, 1);
    match quoted_len(name) {
        None => Ok(Front::Last(Token::Unclosed, 0)),
        Some(len) => between_quotes(alloc, &name[..len]),
    }
}

fn between_quotes(alloc: Global, bytes: &[u8]) -> Result<Front, Memory>
    ensures front { IfOk result (λ f. f ≡ between_quotes bytes.now) }
    ensures within { IfOk result (IsWithin (length bytes.now + 2)) }
{
    let good = good_len(bytes);
    if good < bytes.len() {
        return Ok(Front::Last(Token::BadByte, good + 1));
    }
    let text = unescaped(alloc, bytes)?;
    Ok(Front::Found(Token::Name(text), bytes.len() + 2))
}

fn number(bytes: &[u8]) -> Front
    requires some { 0 < length bytes.now }
    requires begins { is_digit (slice_index bytes.now 0) ≡ true }
    ensures front { result ≡ number bytes.now }
    ensures within { IsWithin (length bytes.now) result }
{
    let whole = digits(bytes);
    let part = decimals(behind(bytes, whole.len()));
    let len = match part {
        [] => whole.len(),
        _ => whole.len() + 1 + part.len(),
    };
    Front::Found(Token::Number(literal(whole, part)), len)
}

/// A directive of a name of four letters.
fn skipped_directive(bytes: &[u8]) -> Front
    requires { 4 < length bytes.now }
    ensures front { result ≡ skipped_directive bytes.now }
    ensures within { IsWithin (length bytes.now) result }
{
    match len_to_stop(behind(bytes, 5)) {
        None => Front::Last(Token::UnclosedDirective, 0),
        Some(len) => Front::Found(Token::SkippedDirective, len + 5),
    }
}

fn directive(bytes: &[u8]) -> Front
    requires { 0 < length bytes.now }
    ensures front { result ≡ directive bytes.now }
    ensures within { IsWithin (length bytes.now) result }
{
    let name = name_at(behind(bytes, 1));
    if is_skipped_name(name) {
        skipped_directive(bytes)
    } else if is_abducible_name(name) {
        Front::Found(Token::Abducible, name.len() + 1)
    } else {
        Front::Last(Token::OtherDirective, 0)
    }
}

/// A sign, a directive, or a byte that begins no token.
fn sign_or_directive(bytes: &[u8]) -> Front
    ensures front { result ≡ sign_or_directive bytes.now }
    ensures within { IsWithin (length bytes.now) result }
{
    match sign_at(bytes) {
        Some((sign, len)) => Front::Found(Token::Sign(sign), len),
        None if begins_directive(bytes) => directive(bytes),
        None => Front::Last(Token::BadByte, 0),
    }
}
