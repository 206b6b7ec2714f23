//! All blocks of a file, one line each.
ghost use Rattle.std.specs.Prelude.{◌≡◌, ◌≤◌, ◌+◌, if◌then◌else◌, All, IfOk, IsErrOf, OnOk, map};
ghost use Rattle.scasp_syntax.specs.declared.program.Program.{Program as ThisProgram};
ghost use Rattle.scasp_cert.specs.Certificate.{certificate_of};
ghost use Rattle.scasp_answers.specs.Files.View.{entry_of};
ghost use Rattle.scasp_answers.specs.Blocks.States as states;
ghost use Rattle.scasp_io.specs.Bytes.{behind, TakesPrefix};
ghost use Rattle.scasp_io.specs.Counts.{Rose};
ghost use Rattle.scasp_command_check.specs.Inside.{tally_of, with_entry, Counted, Took, TookBytes};
ghost use Rattle.scasp_command_check.specs.Outputs.{KeepsWorth, TakesLines};
ghost use Rattle.scasp_command_check.specs.Texts as spec;
ghost use Rattle.scasp_command_check.specs.Worths.{worth_of};

use crate::lines::{block_line, checked_line};
use crate::worth::{Worth, find_worth, see_worth};
use scasp_answers::{Block, Entries, Entry};
use scasp_io::{OutputErr, Sink, write_all};
use scasp_list::Memory;
use scasp_syntax::Program;
use std::alloc::Global;

/// Whether all blocks are accepted.
#[derive(Clone, Copy, Debug, PartialEq, Eq)]
pub enum Rechecked {
    /// Each block is accepted.
    Accepted,
    /// A block is not.
    Refused,
}

/// What has been found so far: the number of blocks, and whether all are accepted.
#[derive(Clone, Copy)]
struct Tally {
    blocks: u64,
    rechecked: Rechecked,
}

impl Tally {
    /// One block more, worth so much.
    fn with_block(self, worth: Worth) -> Result<Tally, Memory>
        ensures blocks { IfOk result (λ tally. tally.blocks ≡ self.blocks + 1) }
        ensures rechecked { IfOk result (λ tally. tally.rechecked ≡ (if spec.is_accepted worth then self.rechecked else Rechecked.Refused)) }
    {
        let rechecked = match worth {
            Worth::Right | Worth::Joins(_) => self.rechecked,
            Worth::Refused(_) => Rechecked::Refused,
        };
        Ok(Tally {
            blocks: self.blocks.checked_add(1).ok_or(Memory)?,
            rechecked,
        })
    }
}

/// Writes the line of a block.
fn recheck_block<K: Sink>(
    alloc: Global,
    program: &Program,
    block: &Block,
    tally: Tally,
    out: &mut K,
) -> Result<Tally, OutputErr>
    ensures tally { IfOk result (λ found. found ≡ with_entry program.now tally (states.block block.now.answer (certificate_of block.now.cert))) }
    ensures took { TookBytes result (K.taken out.old) (K.taken out.new) (spec.line_by (worth_of program.now (certificate_of block.now.cert)) block.now.answer (certificate_of block.now.cert)) }
    ensures counted { Counted result (K.faults out.old) (K.faults out.new) }
    ensures counts { K.faults out.old ≤ K.faults out.new }
{
    let worth = find_worth(alloc, program, &block.cert)?;
    let line = block_line(alloc, block.answer, &block.cert, worth)?;
    let tally = tally.with_block(worth)?;
    write_all(out, line.as_slice())?;
    Ok(tally)
}

/// Writes the line of the entry, where it is a block.
#[tactic(auto, using(crate::proofs::TookLemmas::took_line, crate::proofs::TookLemmas::took_none))]
fn recheck_entry<K: Sink>(
    alloc: Global,
    program: &Program,
    entry: &Entry,
    tally: Tally,
    out: &mut K,
) -> Result<Tally, OutputErr>
    ensures tally { IfOk result (λ found. found ≡ with_entry program.now tally (entry_of entry.now)) }
    ensures took { Took result (K.taken out.old) (K.taken out.new) (spec.entry_lines program.now (entry_of entry.now)) }
    ensures counted { Counted result (K.faults out.old) (K.faults out.new) }
    ensures counts { K.faults out.old ≤ K.faults out.new }
{
    match entry {
        Entry::Block(block) => recheck_block(alloc, program, block, tally, out),
        Entry::Ended(_, _) | Entry::Rejected(_, _, _, _) => Ok(tally),
    }
}

/// Writes the lines of all blocks.
fn recheck_entries<K: Sink>(
    alloc: Global,
    program: &Program,
    entries: &Entries,
    out: &mut K,
) -> Result<Tally, OutputErr>
    ensures tally { IfOk result (λ tally. tally ≡ tally_of program.now (map entry_of entries.now)) }
    ensures took { Took result (K.taken out.old) (K.taken out.new) (spec.block_lines program.now (map entry_of entries.now)) }
    ensures counted { Counted result (K.faults out.old) (K.faults out.new) }
    ensures counts { K.faults out.old ≤ K.faults out.new }
{
    let mut tally = Tally {
        blocks: 0,
        rechecked: Rechecked::Accepted,
    };
    for entry in entries.as_slice() {
        tally = recheck_entry(alloc, program, entry, tally, out)?;
    }
    Ok(tally)
}

/// What the line of an entry says under a program, where it is a block.
fn see_entry(entry: &Entry)
    ensures { (p : ThisProgram) → KeepsWorth p (entry_of entry.now) }
{
    match entry {
        Entry::Block(block) => see_worth(&block.cert),
        Entry::Ended(_, _) | Entry::Rejected(_, _, _, _) => {}
    }
}

/// What the lines of all blocks say under a program: a law, as `see_worth` is.
pub fn see_entries(entries: &Entries)
    ensures { (p : ThisProgram) → All (KeepsWorth p) (map entry_of entries.now) }
{
    for entry in entries.as_slice() {
        see_entry(entry);
    }
}

/// Writes the last line.
fn write_checked<K: Sink>(alloc: Global, blocks: u64, out: &mut K) -> Result<(), OutputErr>
    ensures took { TookBytes result (K.taken out.old) (K.taken out.new) (spec.checked_line blocks) }
    ensures counted { Counted result (K.faults out.old) (K.faults out.new) }
    ensures counts { K.faults out.old ≤ K.faults out.new }
{
    let line = checked_line(alloc, blocks)?;
    write_all(out, line.as_slice())?;
    Ok(())
}

/// Writes what each block of an answer file is worth, a line each as soon as it stands, and then how many blocks there are; tells
/// whether all are accepted.
///
/// # Errors
///
/// A write that failed; want of memory.
pub fn recheck<K: Sink>(
    alloc: Global,
    program: &Program,
    entries: &Entries,
    out: &mut K,
) -> Result<Rechecked, OutputErr>
    ensures ok { OnOk result (K.taken out.new ≡ behind (K.taken out.old) (spec.recheck_text program.now (map entry_of entries.now))) }
    ensures accepted { IfOk result (λ rechecked. rechecked ≡ spec.rechecked_of program.now (map entry_of entries.now)) }
    // Before memory was wanting, the first lines were taken whole.
    ensures memory { IsErrOf result OutputErr.Memory → TakesLines (K.taken out.old) (K.taken out.new) (spec.block_lines program.now (map entry_of entries.now)) }
    ensures write { IsErrOf result OutputErr.Write → TakesPrefix (K.taken out.old) (K.taken out.new) (spec.recheck_text program.now (map entry_of entries.now)) }
    ensures cause { IsErrOf result OutputErr.Write → Rose (K.faults out.old) (K.faults out.new) }
    ensures counts { K.faults out.old ≤ K.faults out.new }
    // What a line says holds of the certificate, whatever came of the writing.
    ensures says { All (KeepsWorth program.now) (map entry_of entries.now) }
{
    see_entries(entries);
    let tally = recheck_entries(alloc, program, entries, out)?;
    write_checked(alloc, tally.blocks, out)?;
    Ok(tally.rechecked)
}
