//! Signs.
ghost use Rattle.std.specs.Prelude.{◌≡◌, ◌<◌, ◌≤◌, length, map, option_map, IfSome};
ghost use Rattle.scasp_reader_tokens.specs.Signs.{entry, entry_at, signs};

use scasp_num::Op;

/// A sign of the language, or one that other languages of its kind have.
#[derive(Clone, Copy, Debug, PartialEq, Eq)]
pub enum Sign {
    /// `(`
    Open,
    /// `)`
    Close,
    /// `[`
    OpenList,
    /// `]`
    CloseList,
    /// `,`
    Comma,
    /// `|`
    Bar,
    /// `+`
    Plus,
    /// `-`
    Minus,
    /// `*`
    Times,
    /// `/`
    Over,
    /// `:-`
    If,
    /// `?-`
    Query,
    /// `=`
    Equal,
    /// `\=`
    Differ,
    /// `.`
    Stop,
    /// How the difference of the two sides compares with 0: of the left side less the right one, or,
    /// where the flag is true, of the right side less the left one.
    Relation(Op, bool),
    /// A sign that the language lacks.
    Foreign,
}

/// The signs of two bytes or more with their texts; of two that begin alike the longer one comes first.
static LONG_SIGNS: [(&[u8], Sign); 22] = [
    (b".=<.", Sign::Relation(Op::Le, false)),
    (b".>=.", Sign::Relation(Op::Le, true)),
    (b".<>.", Sign::Relation(Op::Ne, false)),
    (b"#=<", Sign::Relation(Op::Le, false)),
    (b"#>=", Sign::Relation(Op::Le, true)),
    (b"#<>", Sign::Relation(Op::Ne, false)),
    (b".=.", Sign::Relation(Op::Eq, false)),
    (b".<.", Sign::Relation(Op::Lt, false)),
    (b".>.", Sign::Relation(Op::Lt, true)),
    (b"#=", Sign::Relation(Op::Eq, false)),
    (b"#<", Sign::Relation(Op::Lt, false)),
    (b"#>", Sign::Relation(Op::Lt, true)),
    (b"=:=", Sign::Foreign),
    (b"=\\=", Sign::Foreign),
    (b"\\==", Sign::Foreign),
    (b"=<", Sign::Foreign),
    (b">=", Sign::Foreign),
    (b"==", Sign::Foreign),
    (b"->", Sign::Foreign),
    (b":-", Sign::If),
    (b"?-", Sign::Query),
    (b"\\=", Sign::Differ),
];

/// The signs of one byte with their texts.
static SHORT_SIGNS: [(&[u8], Sign); 24] = [
    (b"(", Sign::Open),
    (b")", Sign::Close),
    (b"[", Sign::OpenList),
    (b"]", Sign::CloseList),
    (b",", Sign::Comma),
    (b"|", Sign::Bar),
    (b"+", Sign::Plus),
    (b"-", Sign::Minus),
    (b"*", Sign::Times),
    (b"/", Sign::Over),
    (b"=", Sign::Equal),
    (b".", Sign::Stop),
    (b"!", Sign::Foreign),
    (b";", Sign::Foreign),
    (b"<", Sign::Foreign),
    (b">", Sign::Foreign),
    (b"\"", Sign::Foreign),
    (b"{", Sign::Foreign),
    (b"}", Sign::Foreign),
    (b"@", Sign::Foreign),
    (b"^", Sign::Foreign),
    (b"&", Sign::Foreign),
    (b":", Sign::Foreign),
    (b"`", Sign::Foreign),
];

/// The first sign of the table whose text stands at the front of the bytes, and the number of its bytes.
fn sign_in(table: &[(&[u8], Sign)], bytes: &[u8]) -> Option<(Sign, usize)>
    ensures sign { result ≡ option_map (λ e. (e.sign, length e.text))
        (entry_at (map (λ e. entry e.0.now e.1) table.now) bytes.now) }
    ensures within { IfSome result (λ x. x.1 ≤ length bytes.now) }
{
    for (text, sign) in table {
        if bytes.starts_with(text) {
            return Some((*sign, text.len()));
        }
    }
    None
}

/// The sign at the front of the bytes, and the number of its bytes.
pub fn sign_at(bytes: &[u8]) -> Option<(Sign, usize)>
    ensures sign { result ≡ option_map (λ e. (e.sign, length e.text)) (entry_at signs bytes.now) }
    ensures some { IfSome result (λ x. 0 < x.1) }
    ensures within { IfSome result (λ x. x.1 ≤ length bytes.now) }
{
    match sign_in(&LONG_SIGNS, bytes) {
        Some(found) => Some(found),
        None => sign_in(&SHORT_SIGNS, bytes),
    }
}
