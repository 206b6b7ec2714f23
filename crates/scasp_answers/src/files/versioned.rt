//! What has been read of an answer file of either version.
ghost use Rattle.std.specs.Prelude.{◌≡◌, ◌-◌, if◌then◌else◌, length, Ok, Err, IfOk, OnOk};
ghost use Rattle.scasp_answers_terms.specs.Tokens.Bounds.{line_fits};
ghost use Rattle.scasp_answers_lines.specs.Forms.View.{line_of};
ghost use Rattle.scasp_copies.specs.Pieces.{piece_of, piece_text};
ghost use Rattle.scasp_copies.specs.View.{line_piece, waiting_of};
ghost use Rattle.scasp_answers.specs.Blocks.Blocks.{at};
ghost use Rattle.scasp_answers.specs.Blocks.Files as spec;
ghost use Rattle.scasp_answers.specs.Blocks.States.{next_state};
ghost use Rattle.scasp_answers.specs.declared.blocks.fault.AnswerKind.TheVariants as kind;
ghost use Rattle.scasp_answers.specs.declared.blocks.version.Version.TheVariants as version;
ghost use Rattle.scasp_answers.specs.States.View.{state_of};
ghost use Rattle.scasp_answers.specs.Files.Inside.{versioned_of, Judges};

use crate::blocks::{AnswerKind, Version};
use crate::files::bytes::indent;
use crate::files::read::BYTE_LIMIT;
use crate::opens::Placing;
use crate::states::State;
use scasp_answers_lines::{Line, fits, line_in};
use scasp_answers_terms::{Cursor, Stop, is_place};
use scasp_copies::{BlockLine, Told, Words, is_copy};
use scasp_list::Memory;
use scasp_name::Names;
use std::alloc::Global;

/// What has been read. In version 2 `told` has the numbered lines of the block so far, and `room` is how many bytes the
/// text of version 1 may still have.
#[derive(Drop)]
pub struct Versioned<'a> {
    state: State,
    version: Version,
    told: Told<'a>,
    room: usize,
}

/// Reads the line at its depth; tells what is wrong with it, if anything is.
fn stand(
    alloc: Global,
    state: &mut State,
    depth: usize,
    line: Line,
) -> Result<Option<AnswerKind>, Memory>
    ensures { Judges (if line_fits (line_of line) then spec.in_order (next_state (state_of state.old) (at depth (line_of line))) else Err kind.NumberTooLarge) result (state_of state.new) }
{
    match fits(alloc, &line) {
        Ok(true) => match state.stand(alloc, depth, line)? {
            Placing::Stands => Ok(None),
            Placing::OutOfOrder => Ok(Some(AnswerKind::Order)),
        },
        Ok(false) => {
            drop(line);
            Ok(Some(AnswerKind::NumberTooLarge))
        }
        Err(error) => {
            drop(line);
            Err(error)
        }
    }
}

/// Reads words at their depth; tells what is wrong with them, if anything is.
fn judge(
    alloc: Global,
    state: &mut State,
    depth: usize,
    words: &[u8],
    names: &Names,
) -> Result<Option<AnswerKind>, Memory>
    ensures { Judges (spec.judged names.now (state_of state.old) (record { depth = depth; words = words.now })) result (state_of state.new) }
{
    match line_in(alloc, words, names) {
        Ok(line) => stand(alloc, state, depth, line),
        Err(Stop::NoForm) => Ok(Some(AnswerKind::Line)),
        Err(Stop::Memory) => Err(Memory),
    }
}

/// Whether the words are the header of version 2.
fn is_second(words: &[u8]) -> bool
    ensures { result ≡ spec.is_second words.now }
{
    words == b"scasp 2".as_slice()
}

/// The words, with the header of version 1 in place of the other.
fn as_first(words: &[u8]) -> &[u8]
    ensures { result.now ≡ spec.first_words words.now }
{
    if is_second(words) { b"scasp 1" } else { words }
}

/// The number that the bytes are, if they are one.
#[tactic(auto, using(crate::proofs::FilesLemmas::CopyLemmas::is_number, crate::proofs::FilesLemmas::CopyLemmas::no_number, crate::proofs::FilesLemmas::CopyLemmas::no_digits))]
fn number_alone(bytes: &[u8]) -> Result<Option<u128>, Memory>
    ensures { IfOk result (λ number. number ≡ spec.number_alone bytes.now) }
{
    let mut cursor = Cursor::new(bytes);
    match cursor.number() {
        Ok(number) if cursor.is_over() => Ok(Some(number)),
        Ok(_) | Err(Stop::NoForm) => Ok(None),
        Err(Stop::Memory) => Err(Memory),
    }
}

/// The number of a line `copy N`, if the words are one.
fn copy_number(words: &[u8]) -> Result<Option<u128>, Memory>
    ensures { IfOk result (λ number. number ≡ spec.copy_in words.now) }
{
    if !is_copy(words) {
        return Ok(None);
    }
    number_alone(&words[5..])
}

/// The room behind a line with its line feed.
#[tactic(auto, using(crate::proofs::FilesLemmas::CopyLemmas::room_left))]
fn room_behind(room: usize, line: &BlockLine<'_>) -> usize
    ensures { result ≡ room - length (piece_text (line_piece line.now)) }
{
    let left = room.saturating_sub(line.depth);
    let left = left.saturating_sub(line.words.as_bytes().len());
    left.saturating_sub(1)
}

impl<'a> Versioned<'a> {
    /// Nothing has been read.
    pub fn new(alloc: Global) -> Versioned<'a>
        ensures { versioned_of result ≡ spec.first_versioned }
    {
        Versioned {
            state: State::new(alloc),
            version: Version::One,
            told: Told::new(alloc),
            room: BYTE_LIMIT,
        }
    }

    /// The state alone.
    pub fn into_state(self) -> State
        ensures { state_of result ≡ state_of self.entry.state }
    {
        let Versioned { state, .. } = self;
        state
    }

    /// Keeps a line of version 2 that stands.
    fn tell(&mut self, line: BlockLine<'a>) -> Result<(), Memory>
        ensures { OnOk result (versioned_of self.new ≡ spec.with_line version.Two (versioned_of self.old) (line_piece line.entry)) }
    {
        self.room = room_behind(self.room, &line);
        if line.words.as_bytes() == b"tree".as_slice() {
            drop(line);
            self.told.clear();
            return Ok(());
        }
        self.told.push(line)
    }

    /// Keeps a line that stands, in version 2.
    fn keep(&mut self, line: BlockLine<'a>) -> Result<(), Memory>
        ensures { OnOk result (versioned_of self.new ≡ spec.with_line self.old.version (versioned_of self.old) (line_piece line.entry)) }
    {
        match self.version {
            Version::One => {
                drop(line);
                Ok(())
            }
            Version::Two => self.tell(line),
        }
    }

    /// Reads a line that is no copy.
    fn read_plain(
        &mut self,
        alloc: Global,
        line: BlockLine<'a>,
        names: &Names,
    ) -> Result<Option<AnswerKind>, Memory>
        ensures { Judges (spec.plain_judged names.now (versioned_of self.old) (line_piece line.entry)) result (versioned_of self.new) }
    {
        let words = line.words.as_bytes();
        let is_second = is_second(words);
        let fault = judge(alloc, &mut self.state, line.depth, as_first(words), names)?;
        if fault.is_some() {
            return Ok(fault);
        }
        if is_second {
            self.version = Version::Two;
        }
        self.keep(line)?;
        Ok(None)
    }

    /// Reads lines that are no copies, the last of which comes first.
    fn read_all(
        &mut self,
        alloc: Global,
        lines: Vec<BlockLine<'a>>,
        names: &Names,
    ) -> Result<Option<AnswerKind>, Memory>
        ensures { Judges (spec.all_judged names.now (versioned_of self.old) (waiting_of lines.entry.items)) result (versioned_of self.new) }
    {
        let mut left = lines;
        'left: while let Some(line) = left.pop() {
            let fault = self.read_plain(alloc, line, names)?;
            if fault.is_some() {
                return Ok(fault);
            }
        }
        Ok(None)
    }

    /// Reads a line `copy number` that is so deep.
    fn read_copy(
        &mut self,
        alloc: Global,
        number: usize,
        depth: usize,
        names: &Names,
    ) -> Result<Option<AnswerKind>, Memory>
        ensures { Judges (spec.copy_in_version self.old.version names.now (versioned_of self.old) number depth) result (versioned_of self.new) }
    {
        if self.version == Version::One {
            return Ok(Some(AnswerKind::Order));
        }
        let Some(subtree) = self.told.copy_of(number, depth) else {
            return Ok(Some(AnswerKind::Order));
        };
        let has_room = subtree.fits(self.room);
        let lines = if has_room {
            subtree.copy(alloc)?
        } else {
            subtree.first(alloc)?
        };
        let fault = self.read_all(alloc, lines, names)?;
        if fault.is_none() && !has_room {
            return Ok(Some(AnswerKind::Limit));
        }
        Ok(fault)
    }

    /// Reads a line that is no remark; tells what is wrong with it, if anything is.
    pub fn read_line(
        &mut self,
        alloc: Global,
        line: &'a [u8],
        names: &Names,
    ) -> Result<Option<AnswerKind>, Memory>
        ensures { Judges (spec.line_judged names.now (versioned_of self.old) (piece_of line.now)) result (versioned_of self.new) }
    {
        let depth = indent(line);
        let words = &line[depth..];
        match copy_number(words)? {
            Some(number) if is_place(number) => {
                self.read_copy(alloc, number as usize, depth, names)
            }
            Some(_) => Ok(Some(AnswerKind::NumberTooLarge)),
            None => {
                let line = BlockLine {
                    depth,
                    words: Words::Read(words),
                };
                self.read_plain(alloc, line, names)
            }
        }
    }
}
