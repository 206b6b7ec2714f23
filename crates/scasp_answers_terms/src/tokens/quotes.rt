//! Texts in quotes.
ghost use Rattle.std.specs.Prelude.{◌≡◌, ◌<◌, ◌≤◌, ◌+◌, false, length, IfSome};
ghost use Rattle.scasp_answers_terms.specs.Tokens.Tokens.{quote_step, quoted_length, quoted_token, quoted_front};
ghost use Rattle.scasp_answers_terms.specs.Tokens.View.{front_of, token_of};

use crate::tokens::token::{Front, QuoteStep, Token};
use crate::tokens::words::is_plain;
use std::str;

fn quote_step(is_escaped: bool, byte: u8) -> QuoteStep
    ensures { result ≡ quote_step is_escaped byte }
{
    match (is_escaped, byte) {
        (true, b'\'' | b'\\' | b'n' | b't') => QuoteStep::Inside(false),
        (true, _) => QuoteStep::Unwritten,
        (false, b'\'') => QuoteStep::Closing,
        (false, b'\t' | b'\n') => QuoteStep::Unwritten,
        (false, _) => QuoteStep::Inside(byte == b'\\'),
    }
}

/// The number of bytes before the quote that ends the text, where one does.
fn quoted_len(bytes: &[u8]) -> Option<usize>
    ensures length { result ≡ quoted_length false bytes.now }
    ensures within { IfSome result (λ n. n < length bytes.now) }
{
    let mut is_escaped = false;
    for (at, byte) in bytes.iter().enumerate() {
        match quote_step(is_escaped, *byte) {
            QuoteStep::Inside(next) => is_escaped = next,
            QuoteStep::Closing => return Some(at),
            QuoteStep::Unwritten => return None,
        }
    }
    None
}

/// The token that these bytes are between two quotes.
fn quoted_token(bytes: &[u8]) -> Token<'_>
    ensures { token_of result ≡ quoted_token bytes.now }
{
    match str::from_utf8(bytes) {
        Ok(text) if is_plain(text) => Token::Bad,
        Ok(text) => Token::Quoted(text),
        Err(_) => Token::Bad,
    }
}

/// The token of a quote and the bytes behind it.
pub fn quoted_front(bytes: &[u8]) -> Front<'_>
    ensures front { front_of result ≡ quoted_front bytes.now }
    ensures within { result.more ≤ length bytes.now }
{
    match quoted_len(bytes) {
        None => Front {
            token: Token::Bad,
            more: bytes.len(),
        },
        Some(len) => Front {
            token: quoted_token(&bytes[..len]),
            more: len + 1,
        },
    }
}
