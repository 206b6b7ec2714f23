//! Tokens.

/// A token of a line. Its texts are those of the line.
#[derive(Clone, Copy, Debug)]
pub enum Token<'a> {
    Word(&'a str),
    /// The bytes between two quotes.
    Quoted(&'a str),
    /// `V`, and a number.
    Variable(u128),
    /// A number; the largest `u128` stands for each that is larger.
    Digits(u128),
    Fraction(u128, u128),
    Minus,
    Plus,
    Star,
    Comma,
    Bar,
    Paren,
    Close,
    Bracket,
    Unbracket,
    /// Any other byte.
    Sign(u8),
    /// A byte at which no token begins as it is printed.
    Bad,
}

/// A token, and how many bytes behind its first belong to it.
#[derive(Clone, Copy, Debug)]
pub struct Front<'a> {
    pub token: Token<'a>,
    pub more: usize,
}

/// What a byte between two quotes does.
#[derive(Clone, Copy, Debug)]
pub enum QuoteStep {
    /// The text goes on; whether the next byte stands behind a backslash.
    Inside(bool),
    /// It ends the text.
    Closing,
    /// No text is written so.
    Unwritten,
}
