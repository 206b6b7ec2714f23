//! The names of a file.
ghost use Rattle.std.specs.Prelude.{◌≡◌, OnOk};
ghost use Rattle.scasp_answers_terms.specs.Tokens.View.{token_of};
ghost use Rattle.scasp_answers.specs.Files.Texts as spec;

use crate::files::bytes::{indent, is_remark, line_len};
use scasp_answers_terms::{Cursor, Token, unescaped};
use scasp_list::Memory;
use scasp_name::Names;
use std::alloc::Global;

/// Puts the text of the token into the table, where it may be a name.
fn add_token(alloc: Global, token: Token<'_>, names: &mut Names) -> Result<(), Memory>
    ensures { OnOk result (names.new ≡ spec.with_token names.old (token_of token.entry)) }
{
    match token {
        Token::Word(word) => {
            names.intern(word)?;
        }
        Token::Quoted(quoted) => {
            let text = unescaped(alloc, quoted)?;
            names.intern(text.as_str())?;
        }
        Token::Variable(_)
        | Token::Digits(_)
        | Token::Fraction(_, _)
        | Token::Minus
        | Token::Plus
        | Token::Star
        | Token::Comma
        | Token::Bar
        | Token::Paren
        | Token::Close
        | Token::Bracket
        | Token::Unbracket
        | Token::Sign(_)
        | Token::Bad => {}
    }
    Ok(())
}

/// Puts the texts of the tokens that may be names into the table.
fn add_tokens(alloc: Global, cursor: &mut Cursor<'_>, names: &mut Names) -> Result<(), Memory>
    ensures { OnOk result (names.new ≡ spec.with_tokens names.old cursor.old) }
{
    while let Some(text) = cursor.pop_text() {
        add_token(alloc, text, names)?;
    }
    Ok(())
}

/// Puts the texts of the line that may be names into the table: those behind its first word.
fn add_line(alloc: Global, line: &[u8], names: &mut Names) -> Result<(), Memory>
    ensures { OnOk result (names.new ≡ spec.with_names_of names.old line.now) }
{
    if is_remark(line) {
        return Ok(());
    }
    let mut cursor = Cursor::new(&line[indent(line)..]);
    cursor.take();
    add_tokens(alloc, &mut cursor, names)
}

/// Puts the texts of all lines that may be names into the table.
pub fn add_names(alloc: Global, bytes: &[u8], names: &mut Names) -> Result<(), Memory>
    ensures { OnOk result (names.new ≡ spec.with_names names.old bytes.now) }
{
    let mut rest = bytes;
    while let Some(len) = line_len(rest) {
        add_line(alloc, &rest[..len], names)?;
        rest = &rest[len + 1..];
    }
    Ok(())
}
