//! Tokens and their places.
use crate::sign::Sign;
use crate::text::Text;
use scasp_list::Sequence;
use scasp_num::Rat;

/// What stands at a place of a text.
#[derive(Debug, Drop)]
pub enum Token {
    /// A name, without its quotes and escapes.
    Name(Text),
    /// The word `not`.
    Not,
    /// A variable; `_` is one too.
    Variable(Text),
    /// A number, or None where it is too large.
    Number(Option<Rat>),
    Sign(Sign),
    /// `#abducible`, before the name of a predicate that may be assumed.
    Abducible,
    /// `#show` or `#pred`, up to its stop.
    SkippedDirective,
    /// `#show` or `#pred` without a stop; nothing is looked for behind it.
    UnclosedDirective,
    /// Another directive; nothing is looked for behind it.
    OtherDirective,
    /// A byte that begins no token, or that no quoted name may have; nothing is looked for behind it.
    BadByte,
    /// A quote or a comment without its end; nothing is looked for behind it.
    Unclosed,
    /// The end of the text.
    End,
}

/// A token, and the place of its first byte, counted from 0.
#[derive(Debug, Drop)]
pub struct Placed {
    pub at: u64,
    pub token: Token,
}

/// Tokens in the order of their places.
pub type Tokens = Sequence<Placed>;

/// What bytes begin with.
#[derive(Drop)]
pub enum Front {
    /// So many bytes without a token.
    Gap(usize),
    /// A token of so many bytes.
    Found(Token, usize),
    /// The last token, so many bytes on.
    Last(Token, usize),
}
