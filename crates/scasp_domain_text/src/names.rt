//! The names of a domain file.
ghost use Rattle.std.specs.Prelude.{◌≡◌, OnOk};
ghost use Rattle.scasp_answers.specs.Files.Texts.{with_token, with_tokens};
ghost use Rattle.scasp_answers_terms.specs.Tokens.Tokens.{tokens_in};
ghost use Rattle.scasp_answers_terms.specs.Tokens.View.{token_of};
ghost use Rattle.scasp_domain_text.specs.Names.{domain_names};

use crate::line::line_len;
use scasp_answers_terms::{Cursor, Token, unescaped};
use scasp_list::Memory;
use scasp_name::Names;
use std::alloc::Global;

/// Puts the text of the token into the table, where it may be a name.
fn add_token(alloc: Global, token: Token<'_>, names: &mut Names) -> Result<(), Memory>
    ensures { OnOk result (names.new ≡ with_token names.old (token_of token.entry)) }
{
    match token {
        Token::Word(word) => {
            names.intern(word)?;
        }
        Token::Quoted(quoted) => {
            let text = unescaped(alloc, quoted)?;
            names.intern(text.as_str())?;
        }
        Token::Variable(_)
        | Token::Digits(_)
        | Token::Fraction(_, _)
        | Token::Minus
        | Token::Plus
        | Token::Star
        | Token::Comma
        | Token::Bar
        | Token::Paren
        | Token::Close
        | Token::Bracket
        | Token::Unbracket
        | Token::Sign(_)
        | Token::Bad => {}
    }
    Ok(())
}

/// Puts the texts of the line that may be names into the table.
fn add_line(alloc: Global, line: &[u8], names: &mut Names) -> Result<(), Memory>
    ensures { OnOk result (names.new ≡ with_tokens names.old (tokens_in line.now)) }
{
    let mut cursor = Cursor::new(line);
    while let Some(text) = cursor.pop_text() {
        add_token(alloc, text, names)?;
    }
    Ok(())
}

/// Puts the texts of all lines that may be names into the table.
pub(crate) fn add_names(alloc: Global, bytes: &[u8], names: &mut Names) -> Result<(), Memory>
    ensures { OnOk result (names.new ≡ domain_names names.old bytes.now) }
{
    let mut rest = bytes;
    while let Some(len) = line_len(rest) {
        add_line(alloc, &rest[..len], names)?;
        rest = &rest[len + 1..];
    }
    Ok(())
}
