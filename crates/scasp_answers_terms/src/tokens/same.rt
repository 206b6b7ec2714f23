//! Whether two tokens are the same, of those that stand in the forms' own texts.
ghost use Rattle.std.specs.Prelude.{◌≡◌};
ghost use Rattle.scasp_answers_terms.specs.Tokens.Readers.{same_token};
ghost use Rattle.scasp_answers_terms.specs.Tokens.Tokens as spec;
ghost use Rattle.scasp_answers_terms.specs.Tokens.View.{token_of};

use crate::tokens::token::Token;

pub fn is_same(first: Token<'_>, second: Token<'_>) -> bool
    ensures { result ≡ same_token (token_of first.entry) (token_of second.entry) }
{
    match first {
        Token::Word(text) => is_word(text, second),
        Token::Digits(number) => is_digits(number, second),
        Token::Sign(byte) => is_sign(byte, second),
        Token::Minus => matches!(second, Token::Minus),
        Token::Plus => matches!(second, Token::Plus),
        Token::Star => matches!(second, Token::Star),
        Token::Comma => matches!(second, Token::Comma),
        Token::Bar => matches!(second, Token::Bar),
        Token::Paren => matches!(second, Token::Paren),
        Token::Close => matches!(second, Token::Close),
        Token::Bracket => matches!(second, Token::Bracket),
        Token::Unbracket => matches!(second, Token::Unbracket),
        Token::Quoted(_) | Token::Variable(_) | Token::Fraction(_, _) | Token::Bad => false,
    }
}

fn is_word(text: &str, token: Token<'_>) -> bool
    ensures { result ≡ same_token (spec.word text.now) (token_of token.entry) }
{
    matches!(token, Token::Word(other) if text == other)
}

fn is_digits(number: u128, token: Token<'_>) -> bool
    ensures { result ≡ same_token (spec.digits number) (token_of token.entry) }
{
    matches!(token, Token::Digits(other) if number == other)
}

/// Whether the token is this byte.
pub fn is_sign(byte: u8, token: Token<'_>) -> bool
    ensures { result ≡ same_token (spec.sign byte) (token_of token.entry) }
{
    matches!(token, Token::Sign(other) if byte == other)
}
