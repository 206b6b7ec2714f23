//! The token at the front of bytes.
ghost use Rattle.std.specs.Prelude.{◌≡◌, ◌<◌, ◌∷◌, length, Some, IfSome, IfNone};
ghost use Rattle.scasp_answers_terms.specs.Tokens.Tokens as spec;
ghost use Rattle.scasp_answers_terms.specs.Tokens.View.{begins_text, front_of, is_text, texts_of, token_of};

use crate::tokens::numbers::{digits_at, digits_below, number_front, variable_front};
use crate::tokens::quotes::quoted_front;
use crate::tokens::signs::sign_token;
use crate::tokens::token::{Front, Token};
use crate::tokens::words::{is_lower, word_front};

/// Whether only a token of one byte begins with the byte.
pub fn is_sign(byte: u8) -> bool
    ensures { result ≡ spec.is_sign byte }
{
    !(is_lower(byte) || byte.is_ascii_digit() || byte == b'V' || byte == b'\'')
}

/// Whether a text that may be a name can begin with the byte.
fn begins_text(byte: u8) -> bool
    ensures { result ≡ begins_text byte }
{
    is_lower(byte) || byte == b'\''
}

/// Whether the token is a text that may be a name.
fn is_text(token: Token<'_>) -> bool
    ensures { result ≡ is_text (token_of token.entry) }
{
    matches!(token, Token::Word(_) | Token::Quoted(_))
}

/// The token that begins with this byte, with these behind it; both together are `bytes`.
pub fn front_at<'a>(first: u8, rest: &'a [u8], bytes: &'a [u8]) -> Front<'a>
    requires { bytes.now ≡ first ∷ rest.now }
    ensures front { spec.first_front bytes.now ≡ Some (front_of result) }
    ensures within { result.more < length bytes.now }
{
    if is_lower(first) {
        word_front(bytes)
    } else if first.is_ascii_digit() {
        let whole = digits_at(bytes);
        number_front(whole, digits_below(&bytes[whole.len()..]))
    } else if first == b'V' {
        variable_front(digits_at(rest))
    } else if first == b'\'' {
        quoted_front(rest)
    } else {
        Front {
            token: sign_token(first),
            more: 0,
        }
    }
}

/// What is passed at once from this byte on, with these behind it, on the way to a text that may be a name: the text, if
/// one begins here, and the bytes that are left. The byte and those behind it are together `bytes`.
pub fn text_front<'a>(first: u8, rest: &'a [u8], bytes: &'a [u8]) -> (Option<Token<'a>>, &'a [u8])
    requires { bytes.now ≡ first ∷ rest.now }
    ensures some { IfSome result.0 (λ text. texts_of (spec.tokens_in bytes.now) ≡ token_of text ∷ texts_of (spec.tokens_in result.1.now)) }
    ensures none { IfNone result.0 (texts_of (spec.tokens_in bytes.now) ≡ texts_of (spec.tokens_in result.1.now)) }
    ensures shorter { length result.1.now < length bytes.now }
{
    if !begins_text(first) {
        return (None, rest);
    }
    let front = front_at(first, rest, bytes);
    let behind = &bytes[front.more + 1..];
    if is_text(front.token) {
        (Some(front.token), behind)
    } else {
        (None, behind)
    }
}
