//! The blocks of an answer file for the eye, each below the line that `check` tells of it.
ghost use Rattle.std.specs.Prelude.{◌≡◌, All, IfOk, map};
ghost use Rattle.scasp_answers.specs.Files.View.{entry_of};
ghost use Rattle.scasp_command_check.specs.Outputs.{KeepsWorth};
ghost use Rattle.scasp_view_top.specs.Answers as spec;
ghost use Rattle.scasp_view_top.specs.Blocks.View.{judgement_of};

mod judging;

use crate::answers::judging::put_entry;
use crate::blocks::{Judged, are_accepted, print_blocks};
use crate::clauses::clauses_in_words;
use crate::trees::View;
use crate::words::Options;
use scasp_answers::Entries;
use scasp_command_check::see_entries;
use scasp_list::Memory;
use scasp_name::Names;
use scasp_syntax::Program;
use std::alloc::Global;

/// What is shown of an answer file.
#[derive(Drop)]
pub struct Shown {
    pub text: Vec<u8>,
    /// Whether each block that is asked for is accepted.
    pub accepted: bool,
}

/// The blocks that are asked for, with what is said of them.
fn judge_all<'a>(
    alloc: Global,
    program: &Program,
    names: &Names,
    asked: Option<u64>,
    entries: &'a Entries,
) -> Result<Vec<Judged<'a>>, Memory>
    ensures { IfOk result (λ blocks. map judgement_of blocks.items ≡ spec.judged program.now names.now asked (map entry_of entries.now)) }
{
    let mut blocks = Vec::new(alloc);
    for entry in entries.as_slice() {
        put_entry(&mut blocks, program, names, asked, entry)?;
    }
    Ok(blocks)
}

/// The blocks with what is said of them, and the clauses of the program in words.
fn print_judged(
    alloc: Global,
    program: &Program,
    names: &Names,
    options: Options,
    blocks: &[Judged<'_>],
) -> Result<Vec<u8>, Memory>
    ensures { IfOk result (λ text. text.items ≡ spec.judged_text program.now names.now options (map judgement_of blocks.now)) }
{
    let clauses = clauses_in_words(alloc, names, &program.clauses)?;
    let view = View::new(names, clauses.as_slice(), options.plain);
    print_blocks(alloc, &view, options.checks, options.once, blocks)
}

/// The blocks of an answer file under a program, and whether each that is asked for is accepted. Above a block stands the line that
/// `check` tells of it.
///
/// # Errors
///
/// Want of memory.
pub fn print_answers(
    alloc: Global,
    program: &Program,
    names: &Names,
    options: Options,
    entries: &Entries,
) -> Result<Shown, Memory>
    ensures text { IfOk result (λ shown. shown.text.items ≡ spec.answers_text program.now names.now options (map entry_of entries.now)) }
    ensures accepted { IfOk result (λ shown. shown.accepted ≡ spec.accepted_all program.now names.now options (map entry_of entries.now)) }
    // What a verdict says holds of the certificate.
    ensures says { All (KeepsWorth program.now) (map entry_of entries.now) }
{
    see_entries(entries);
    let blocks = judge_all(alloc, program, names, options.query, entries)?;
    let text = print_judged(alloc, program, names, options, blocks.as_slice())?;
    let accepted = are_accepted(blocks.as_slice());
    Ok(Shown { text, accepted })
}
