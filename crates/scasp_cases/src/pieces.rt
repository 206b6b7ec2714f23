//! The pieces that the lines of a file of cases write of a text.
use scasp_list::Memory;
use scasp_print_words::{put, put_number};

/// How a piece that is repeated changes.
#[derive(Clone, Copy)]
enum Repeat {
    /// Each `@` in it is the number of the time, from 1.
    Numbered,
    /// Each time behind one blank more, from one.
    Stairs,
}

/// A piece, and what stands at its end.
#[derive(Clone, Copy)]
struct Piece<'a> {
    text: &'a str,
    end: &'static str,
}

/// A blank.
const BLANK: Piece = Piece { text: " ", end: "" };

/// How many times a piece stands in a block, by which very many are put.
const BLOCK: u64 = 1_024;

fn put_each(text: &mut Vec<u8>, piece: Piece, times: u64) -> Result<(), Memory> {
    for _ in 0..times {
        put(text, piece.text)?;
        put(text, piece.end)?;
    }
    Ok(())
}

/// Puts the piece so many times, a block of them at once.
fn put_times(text: &mut Vec<u8>, piece: Piece, times: u64) -> Result<(), Memory> {
    let mut block = Vec::new(*text.allocator());
    if times >= BLOCK {
        put_each(&mut block, piece, BLOCK)?;
    }
    for _ in 0..times / BLOCK {
        text.extend_from_slice(block.as_slice())?;
    }
    put_each(text, piece, times % BLOCK)
}

fn put_numbered(text: &mut Vec<u8>, piece: &str, number: u64) -> Result<(), Memory> {
    for byte in piece.as_bytes() {
        if *byte == b'@' {
            put_number(text, number)?;
        } else {
            text.push(*byte)?;
        }
    }
    Ok(())
}

/// Puts the piece for the time of this number.
fn put_once(text: &mut Vec<u8>, piece: Piece, repeat: Repeat, number: u64) -> Result<(), Memory> {
    match repeat {
        Repeat::Numbered => put_numbered(text, piece.text, number)?,
        Repeat::Stairs => {
            put_times(text, BLANK, number)?;
            put(text, piece.text)?;
        }
    }
    put(text, piece.end)
}

/// Puts the piece for each of so many times.
fn put_repeated(
    text: &mut Vec<u8>,
    piece: Piece,
    repeat: Repeat,
    times: u64,
) -> Result<(), Memory> {
    for before in 0..times {
        put_once(text, piece, repeat, before + 1)?;
    }
    Ok(())
}

/// The piece behind its mark.
fn piece_of(line: &str) -> Option<Piece<'_>> {
    if let Some(text) = line.strip_prefix('|') {
        return Some(Piece { text, end: "\n" });
    }
    let text = line.strip_prefix(':')?;
    Some(Piece { text, end: "" })
}

/// The number before the first such mark, and the piece behind it.
fn counted<'a>(line: &'a str, mark: char, end: &'static str) -> Option<(u64, Piece<'a>)> {
    let (number, text) = line.split_once(mark)?;
    let times = number.parse().ok()?;
    Some((times, Piece { text, end }))
}

/// The number of times, and the piece behind it.
fn times_of(line: &str) -> Option<(u64, Piece<'_>)> {
    counted(line, '|', "\n").or(counted(line, ':', ""))
}

/// Puts the piece as often as stands before it; whether there is one.
fn put_same(text: &mut Vec<u8>, line: &str) -> Result<bool, Memory> {
    let Some((times, piece)) = times_of(line) else {
        return Ok(false);
    };
    put_times(text, piece, times)?;
    Ok(true)
}

/// Puts the piece, in this way, as often as stands before it; whether there is one.
fn put_changing(text: &mut Vec<u8>, line: &str, repeat: Repeat) -> Result<bool, Memory> {
    let Some((times, piece)) = times_of(line) else {
        return Ok(false);
    };
    put_repeated(text, piece, repeat, times)?;
    Ok(true)
}

/// Puts the byte of this number; whether it is one.
fn put_byte(text: &mut Vec<u8>, number: &str) -> Result<bool, Memory> {
    let Ok(byte) = number.parse() else {
        return Ok(false);
    };
    text.push(byte)?;
    Ok(true)
}

/// Puts the piece that the line writes at the end; whether it writes one.
pub fn put_piece(text: &mut Vec<u8>, line: &str) -> Result<bool, Memory> {
    if let Some(piece) = piece_of(line) {
        put_each(text, piece, 1)?;
        return Ok(true);
    }
    match line.split_at_checked(1) {
        Some(("*", behind)) => put_same(text, behind),
        Some(("#", behind)) => put_changing(text, behind, Repeat::Numbered),
        Some(("^", behind)) => put_changing(text, behind, Repeat::Stairs),
        Some(("&", behind)) => put_byte(text, behind),
        Some(_) | None => Ok(false),
    }
}
