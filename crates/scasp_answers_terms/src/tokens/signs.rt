//! Tokens of one byte.
ghost use Rattle.std.specs.Prelude.{◌≡◌};
ghost use Rattle.scasp_answers_terms.specs.Tokens.Tokens.{sign_token};
ghost use Rattle.scasp_answers_terms.specs.Tokens.View.{token_of};

use crate::tokens::token::Token;

/// The token of a byte with which none of more bytes begins.
pub fn sign_token<'a>(byte: u8) -> Token<'a>
    ensures { token_of result ≡ sign_token byte }
{
    match byte {
        b'-' => Token::Minus,
        b'+' => Token::Plus,
        b'*' => Token::Star,
        b',' => Token::Comma,
        b'|' => Token::Bar,
        b'(' => Token::Paren,
        b')' => Token::Close,
        b'[' => Token::Bracket,
        b']' => Token::Unbracket,
        _ => Token::Sign(byte),
    }
}
