//! Answer files, from their bytes.
ghost use Rattle.std.specs.Prelude.{◌≡◌, ◌+◌, ◌<◌, ◌≤◌, ◌^◌, ℕ, List, [], length, if◌then◌else◌, Ok, IfOk};
ghost use Rattle.scasp_copies.specs.Pieces.{piece_of};
ghost use Rattle.scasp_answers.specs.Blocks.Files as spec;
ghost use Rattle.scasp_answers.specs.Files.Inside.{versioned_of, Tells};
ghost use Rattle.scasp_answers.specs.Files.Texts.{with_names};
ghost use Rattle.scasp_answers.specs.Files.View.{Told};

use crate::blocks::{AnswerFault, AnswerKind};
use crate::files::bytes::{indent, is_remark, line_len};
use crate::files::error::AnswerErr;
use crate::files::names::add_names;
use crate::files::versioned::Versioned;
use crate::states::{Entries, Phase};
use scasp_name::Names;
use std::alloc::Global;

/// The longest file that is read.
pub const BYTE_LIMIT: usize = 67_108_864;

/// The fault of the line that stands at the byte `at`.
fn fault_of(at: usize, line: &[u8], kind: AnswerKind) -> AnswerFault
    requires { at + length line.now < 2 ^ 64 }
    ensures place { result.at ≡ spec.fault_place at line.now kind }
    ensures kind { result.kind ≡ kind }
{
    let at = match kind {
        AnswerKind::Line | AnswerKind::NumberTooLarge => at + indent(line),
        AnswerKind::Order | AnswerKind::Cut | AnswerKind::Limit => at,
    };
    AnswerFault {
        at: at as u64,
        kind,
    }
}

/// Reads the line that stands at the byte `at`.
fn read_line<'a>(
    alloc: Global,
    read: &mut Versioned<'a>,
    at: usize,
    line: &'a [u8],
    names: &Names,
) -> Result<(), AnswerErr>
    requires { at + length line.now < 2 ^ 64 }
    ensures { Tells (spec.fault_place at line.now) (if spec.is_remark line.now then Ok (versioned_of read.old) else spec.line_judged names.now (versioned_of read.old) (piece_of line.now)) result (versioned_of read.new) }
{
    if is_remark(line) {
        return Ok(());
    }
    match read.read_line(alloc, line, names)? {
        None => Ok(()),
        Some(kind) => Err(AnswerErr::At(fault_of(at, line, kind))),
    }
}

/// What has been read where the last line has ended at the byte `at`, and these bytes are left.
fn ended(read: Versioned<'_>, at: usize, rest: &[u8]) -> Result<Entries, AnswerErr>
    ensures { (names : List (List ℕ)) → Told (spec.read_lines names (versioned_of read.entry) at [] rest.now) result }
{
    let state = read.into_state();
    if !rest.is_empty() || state.phase != Phase::Between {
        return Err(AnswerErr::At(AnswerFault {
            at: at as u64,
            kind: AnswerKind::Cut,
        }));
    }
    Ok(state.entries)
}

/// What a file has behind its header, by a table that has its names, or its first fault.
#[tactic(auto, using(crate::proofs::FilesLemmas::ReadLemmas::reads_on, crate::proofs::FilesLemmas::ReadLemmas::stops_there, crate::proofs::FilesLemmas::ReadLemmas::ends_there))]
fn read_lines(alloc: Global, bytes: &[u8], names: &Names) -> Result<Entries, AnswerErr>
    requires { length bytes.now ≤ spec.byte_limit }
    ensures { Told (spec.read_lines names.now spec.first_versioned 0 (spec.split_lines bytes.now).lines (spec.split_lines bytes.now).rest) result }
{
    let mut read = Versioned::new(alloc);
    let mut rest = bytes;
    let mut at = 0;
    while let Some(len) = line_len(rest) {
        read_line(alloc, &mut read, at, &rest[..len], names)?;
        rest = &rest[len + 1..];
        at += len + 1;
    }
    ended(read, at, rest)
}

/// What an answer file has behind its header, or its first fault with its place. All names of the file are
/// then in the table; after an error it may hold more texts than before.
#[tactic(auto, unfolding(crate::specs::Blocks::Files::file_in))]
pub fn read_answers(alloc: Global, bytes: &[u8], names: &mut Names) -> Result<Entries, AnswerErr>
    ensures read { Told (spec.file_in (with_names names.old bytes.now) bytes.now) result }
    ensures names { IfOk result (λ entries. names.new ≡ with_names names.old bytes.now) }
{
    if bytes.len() > BYTE_LIMIT {
        return Err(AnswerErr::At(AnswerFault {
            at: BYTE_LIMIT as u64,
            kind: AnswerKind::Limit,
        }));
    }
    add_names(alloc, bytes, names)?;
    read_lines(alloc, bytes, names)
}
