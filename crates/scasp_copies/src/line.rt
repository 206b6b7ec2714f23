//! The numbered lines of a block.
ghost use Rattle.std.specs.Prelude.{◌≡◌, ◌++◌, ◌+◌, ◌<◌, length, decimal, OnOk, IfOk, IfSome, IfNone};
ghost use Rattle.scasp_copies.specs.Copies as spec;
ghost use Rattle.scasp_copies.specs.Pieces.{piece_text};
ghost use Rattle.scasp_copies.specs.View.{words_of, line_piece, move_of, moved_by};

use crate::moving::Moving;
use crate::words::{before_digits, is_call};
use itoa::Buffer;
use scasp_list::Memory;
use std::alloc::Global;

/// The words of a line: bytes of the file, or such with a line number that has been moved.
#[derive(Drop)]
pub enum Words<'a> {
    Read(&'a [u8]),
    Moved(Vec<u8>),
}

/// A numbered line of a block: words behind so many blanks.
#[derive(Drop)]
pub struct BlockLine<'a> {
    pub depth: usize,
    pub words: Words<'a>,
}

/// The words before the digits at their end, and these digits in place of those.
fn with_number(alloc: Global, words: &[u8], number: u128) -> Result<Vec<u8>, Memory>
    ensures { IfOk result (λ made. made.items ≡ spec.before_digits words.now ++ decimal number) }
{
    let mut made = Vec::from_slice(alloc, before_digits(words))?;
    made.extend_from_slice(Buffer::new().format(number).as_bytes())?;
    Ok(made)
}

/// What is left of the room behind so many bytes, if they find room.
fn room_behind(room: usize, bytes: usize) -> Option<usize>
    ensures some { IfSome result (λ left. bytes + left ≡ room) }
    ensures none { IfNone result (room < bytes) }
{
    room.checked_sub(bytes)
}

impl<'a> Words<'a> {
    /// The words, as bytes.
    pub fn as_bytes(&self) -> &[u8]
        ensures { result.now ≡ words_of self.now }
    {
        match self {
            Words::Read(bytes) => bytes,
            Words::Moved(bytes) => bytes.as_slice(),
        }
    }

    /// The same words.
    fn copy(&self, alloc: Global) -> Result<Words<'a>, Memory>
        ensures { IfOk result (λ words. words_of words ≡ words_of self.now) }
    {
        match self {
            Words::Read(bytes) => Ok(Words::Read(*bytes)),
            Words::Moved(bytes) => Ok(Words::Moved(Vec::from_slice(alloc, bytes.as_slice())?)),
        }
    }

    /// The words behind the move.
    fn moved(&self, alloc: Global, moving: Moving) -> Result<Words<'a>, Memory>
        ensures { IfOk result (λ words. words_of words ≡ spec.moved_words (move_of moving) (words_of self.now)) }
    {
        let bytes = self.as_bytes();
        match moving.number_of(bytes) {
            Some(number) => Ok(Words::Moved(with_number(alloc, bytes, number)?)),
            None => self.copy(alloc),
        }
    }
}

/// What is left of the room behind the words as they are moved.
fn room_behind_words(words: &[u8], moving: Moving, room: usize) -> Option<usize>
    ensures some { IfSome result (λ left. length (spec.moved_words (move_of moving) words.now) + left ≡ room) }
    ensures none { IfNone result (room < length (spec.moved_words (move_of moving) words.now)) }
{
    match moving.number_of(words) {
        Some(number) => {
            let left = room_behind(room, before_digits(words).len())?;
            room_behind(left, Buffer::new().format(number).len())
        }
        None => room_behind(room, words.len()),
    }
}

impl<'a> BlockLine<'a> {
    /// Whether the line is a call that rules or cases explain.
    pub(crate) fn is_call(&self) -> bool
        ensures { result ≡ spec.is_call (line_piece self.now) }
    {
        is_call(self.words.as_bytes())
    }

    /// The line as it stands in the copy.
    pub(crate) fn moved(&self, alloc: Global, moving: Moving) -> Result<BlockLine<'a>, Memory>
        ensures { IfOk result (λ line. line_piece line ≡ moved_by moving (line_piece self.now)) }
    {
        let below = self.depth.saturating_sub(moving.top);
        let Some(depth) = moving.depth.checked_add(below) else {
            return Err(Memory);
        };
        Ok(BlockLine {
            depth,
            words: self.words.moved(alloc, moving)?,
        })
    }

    /// What is left of the room behind the line as it stands in the copy, with its line feed.
    pub(crate) fn room_behind(&self, moving: Moving, room: usize) -> Option<usize>
        ensures some { IfSome result (λ left. length (piece_text (moved_by moving (line_piece self.now))) + left ≡ room) }
        ensures none { IfNone result (room < length (piece_text (moved_by moving (line_piece self.now)))) }
    {
        let left = room_behind(room, moving.depth)?;
        let left = room_behind(left, self.depth.saturating_sub(moving.top))?;
        let left = room_behind_words(self.words.as_bytes(), moving, left)?;
        room_behind(left, 1)
    }
}
