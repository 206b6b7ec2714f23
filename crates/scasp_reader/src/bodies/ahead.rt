//! What the next tokens begin.
ghost use Rattle.std.specs.Prelude.{◌≡◌, ◌<◌, ◌+◌, ◌^◌, option_copied, is_some};
ghost use Rattle.scasp_reader_terms.specs.Steps.{is_sign};
ghost use Rattle.scasp_reader.specs.Bodies.Items.{equation_sign, nth_token, is_number, is_variable, is_name, is_equation_at, is_number_equation, begins_equation, begins_negation};

use scasp_reader_tokens::{Placed, Sign, Token};

/// The sign of an equation: whether its sides are equal.
pub(crate) fn equation_sign(token: Option<&Token>) -> Option<bool>
    ensures { result ≡ equation_sign (option_copied token.entry) }
{
    let Some(Token::Sign(sign)) = token else {
        return None;
    };
    match sign {
        Sign::Equal => Some(true),
        Sign::Differ => Some(false),
        Sign::Open
        | Sign::Close
        | Sign::OpenList
        | Sign::CloseList
        | Sign::Comma
        | Sign::Bar
        | Sign::Plus
        | Sign::Minus
        | Sign::Times
        | Sign::Over
        | Sign::If
        | Sign::Query
        | Sign::Stop
        | Sign::Relation(_, _)
        | Sign::Foreign => None,
    }
}

fn nth_token(tokens: &[Placed], n: usize) -> Option<&Token>
    ensures { option_copied result ≡ nth_token tokens.now n }
{
    match tokens.get(n) {
        Some(placed) => Some(&placed.token),
        None => None,
    }
}

fn is_number(token: Option<&Token>) -> bool
    ensures { result ≡ is_number (option_copied token.entry) }
{
    matches!(token, Some(Token::Number(_)))
}

fn is_variable(token: Option<&Token>) -> bool
    ensures { result ≡ is_variable (option_copied token.entry) }
{
    matches!(token, Some(Token::Variable(_)))
}

fn is_name(token: Option<&Token>) -> bool
    ensures { result ≡ is_name (option_copied token.entry) }
{
    matches!(token, Some(Token::Name(_)))
}

fn is_sign(token: Option<&Token>, sign: Sign) -> bool
    ensures { result ≡ is_sign sign (option_copied token.entry) }
{
    if let Some(Token::Sign(next)) = token {
        sign == *next
    } else {
        false
    }
}

fn is_equation_at(tokens: &[Placed], n: usize) -> bool
    ensures { result ≡ is_equation_at tokens.now n }
{
    equation_sign(nth_token(tokens, n)).is_some()
}

/// From the token `n` on: `number ["/" number]`, and a sign of an equation.
fn is_number_equation(tokens: &[Placed], n: usize) -> bool
    requires { n < 2 ^ 32 }
    ensures { result ≡ is_number_equation tokens.now n }
{
    is_number(nth_token(tokens, n))
        && (is_equation_at(tokens, n + 1)
            || (is_sign(nth_token(tokens, n + 1), Sign::Over)
                && is_number(nth_token(tokens, n + 2))
                && is_equation_at(tokens, n + 3)))
}

/// A variable or a number as a term, and a sign of an equation.
pub(crate) fn begins_equation(tokens: &[Placed]) -> bool
    ensures { result ≡ begins_equation tokens.now }
{
    (is_variable(nth_token(tokens, 0)) && is_equation_at(tokens, 1))
        || is_number_equation(tokens, 0)
        || (is_sign(nth_token(tokens, 0), Sign::Minus) && is_number_equation(tokens, 1))
}

/// `-`, and a name.
pub(crate) fn begins_negation(tokens: &[Placed]) -> bool
    ensures { result ≡ begins_negation tokens.now }
{
    is_sign(nth_token(tokens, 0), Sign::Minus) && is_name(nth_token(tokens, 1))
}
