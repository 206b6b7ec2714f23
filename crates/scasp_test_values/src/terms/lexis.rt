//! Tokens of texts.
use scasp_reader_tokens::{Sign, Token, tokens};
use std::alloc::Global;
use std::test::Fail;

/// Adds the token in a short form.
fn show_token(shown: &mut String, token: &Token) -> Result<(), Fail> {
    match token {
        Token::Name(text) => {
            shown.push_str("name ")?;
            shown.push_str(text.as_str())?;
        }
        Token::Not => shown.push_str("not")?,
        Token::Variable(text) => {
            shown.push_str("variable ")?;
            shown.push_str(text.as_str())?;
        }
        Token::Number(Some(number)) => {
            let num = number.num();
            let den = number.den();
            write!(shown, "{num}/{den}")?;
        }
        Token::Number(None) => shown.push_str("too large")?,
        Token::Sign(Sign::Foreign) => shown.push_str("foreign")?,
        Token::Sign(sign) => write!(shown, "{sign:?}")?,
        Token::Abducible => shown.push_str("abducible")?,
        Token::SkippedDirective => shown.push_str("skipped")?,
        Token::UnclosedDirective => shown.push_str("unclosed directive")?,
        Token::OtherDirective => shown.push_str("other directive")?,
        Token::BadByte => shown.push_str("bad byte")?,
        Token::Unclosed => shown.push_str("unclosed")?,
        Token::End => shown.push_str("end")?,
    }
    Ok(())
}

/// The tokens, each behind its place.
fn show(alloc: Global, bytes: &[u8]) -> Result<String, Fail> {
    let mut shown = String::new(alloc);
    let mut comma = "";
    let all = tokens(alloc, bytes)?;
    for placed in all.as_slice() {
        let at = placed.at;
        write!(shown, "{comma}{at} ")?;
        show_token(&mut shown, &placed.token)?;
        comma = ", ";
    }
    Ok(shown)
}

static WORDS: [(&[u8], &str); 21] = [
    (b"", "0 end"),
    (b" \t\r\n", "4 end"),
    (b"p", "0 name p, 1 end"),
    (b"p1_Ab q", "0 name p1_Ab, 6 name q, 7 end"),
    (b"not nota", "0 not, 4 name nota, 8 end"),
    (b"'not'", "0 name not, 5 end"),
    (
        b"X _ _x",
        "0 variable X, 2 variable _, 4 variable _x, 6 end",
    ),
    (
        b"p(a).",
        "0 name p, 1 Open, 2 name a, 3 Close, 4 Stop, 5 end",
    ),
    (b":- ?-", "0 If, 3 Query, 5 end"),
    (b"[|],", "0 OpenList, 1 Bar, 2 CloseList, 3 Comma, 4 end"),
    (b"+-*/", "0 Plus, 1 Minus, 2 Times, 3 Over, 4 end"),
    (b"= \\=", "0 Equal, 2 Differ, 4 end"),
    (b"12", "0 12/1, 2 end"),
    (b"0.50", "0 1/2, 4 end"),
    (b"1.x", "0 1/1, 1 Stop, 2 name x, 3 end"),
    (b"1.5.", "0 3/2, 3 Stop, 4 end"),
    (b"007a", "0 7/1, 3 name a, 4 end"),
    (
        b"170141183460469231731687303715884105727",
        "0 170141183460469231731687303715884105727/1, 39 end",
    ),
    (
        b"170141183460469231731687303715884105728 1",
        "0 too large, 40 1/1, 41 end",
    ),
    (
        b"0.000000000000000000000000000000000000000",
        "0 too large, 41 end",
    ),
    (
        b"#=#<>#<",
        "0 Relation(Eq, false), 2 Relation(Ne, false), 5 Relation(Lt, false), 7 end",
    ),
];

static MARKS: [(&[u8], &str); 20] = [
    (
        b"#>#=<#>=",
        "0 Relation(Lt, true), 2 Relation(Le, false), 5 Relation(Le, true), 8 end",
    ),
    (
        b".=..<>.",
        "0 Relation(Eq, false), 3 Relation(Ne, false), 7 end",
    ),
    (b".=<", "0 Stop, 1 foreign, 3 end"),
    (b"a ; b.", "0 name a, 2 foreign, 4 name b, 5 Stop, 6 end"),
    (b"X =:= 3", "0 variable X, 2 foreign, 6 3/1, 7 end"),
    (b"% a\np%", "4 name p, 6 end"),
    (b"/**/p/*a*b/*/", "4 name p, 13 end"),
    (b"p /*/", "0 name p, 2 unclosed"),
    (b"'it''s\\'\\\\\\n'", "0 name it's'\\\n, 13 end"),
    (b"''", "0 name , 2 end"),
    (b"'\xc3\xa9'", "0 name \u{e9}, 4 end"),
    (b"p 'ab", "0 name p, 2 unclosed"),
    (b"p 'a\\xb'", "0 name p, 4 bad byte"),
    (b"'a\\x", "0 unclosed"),
    (b"'a\xc3' q", "2 bad byte"),
    (b"p \xc3", "0 name p, 2 bad byte"),
    (
        b"#show p/1. %\n#pred p(X) :: '. ' .",
        "0 skipped, 13 skipped, 33 end",
    ),
    (b"#show p/1.q", "0 unclosed directive"),
    (b"p #abducible", "0 name p, 2 abducible, 12 end"),
    (b"p #abducibles", "0 name p, 2 other directive"),
];

#[test]
fn words_have_their_places(rt: HostRuntime) -> Result<(), Fail> {
    for (text, want) in &WORDS {
        let shown = show(rt.alloc(), text)?;
        assert_eq!(rt; shown.as_str(), *want);
    }
    Ok(())
}

#[test]
fn marks_have_their_places(rt: HostRuntime) -> Result<(), Fail> {
    for (text, want) in &MARKS {
        let shown = show(rt.alloc(), text)?;
        assert_eq!(rt; shown.as_str(), *want);
    }
    Ok(())
}
