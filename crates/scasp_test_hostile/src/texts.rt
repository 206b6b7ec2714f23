//! Texts of many like pieces.
use scasp_io::Memory;
use std::alloc::Global;

/// A text, so many times a piece, a text in the middle, as many times another piece, and a text behind them.
#[derive(Clone, Copy)]
pub(crate) struct Pieces {
    pub before: &'static str,
    pub piece: &'static str,
    pub times: u64,
    pub middle: &'static str,
    pub other: &'static str,
    pub behind: &'static str,
}

/// No text.
pub(crate) const EMPTY: Pieces = Pieces {
    before: "",
    piece: "",
    times: 0,
    middle: "",
    other: "",
    behind: "",
};

/// Puts the piece at the end, so many times.
fn push_times(text: &mut String, piece: &str, times: u64) -> Result<(), Memory> {
    for _ in 0..times {
        text.push_str(piece)?;
    }
    Ok(())
}

/// The whole text.
pub(crate) fn text_of(alloc: Global, pieces: &Pieces) -> Result<String, Memory> {
    let mut text = String::from_str(alloc, pieces.before)?;
    push_times(&mut text, pieces.piece, pieces.times)?;
    text.push_str(pieces.middle)?;
    push_times(&mut text, pieces.other, pieces.times)?;
    text.push_str(pieces.behind)?;
    Ok(text)
}
