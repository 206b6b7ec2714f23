//! All blocks of a file, the text of each as soon as it stands.
ghost use Rattle.std.specs.Prelude.{◌≡◌, ◌≤◌, All, IfOk, IsErrOf, OnOk, map};
ghost use Rattle.scasp_answers.specs.Files.View.{entry_of};
ghost use Rattle.scasp_cert.specs.Certificate.{certificate_of};
ghost use Rattle.scasp_command_check.specs.Inside.{Counted, Took, TookBytes};
ghost use Rattle.scasp_command_check.specs.Outputs.{TakesLines};
ghost use Rattle.scasp_command_extend.specs.Ends as ends;
ghost use Rattle.scasp_command_extend.specs.Inside as inside;
ghost use Rattle.scasp_command_extend.specs.Outcomes.{outcome_of};
ghost use Rattle.scasp_command_extend.specs.Outputs.{KeepsOutcome};
ghost use Rattle.scasp_command_extend.specs.Texts as spec;
ghost use Rattle.scasp_io.specs.Bytes.{behind, TakesPrefix};
ghost use Rattle.scasp_io.specs.Counts.{Rose};
ghost use Rattle.scasp_syntax.specs.Tm.{items};

use crate::ends::{Extended, Tally};
use crate::laws::see_outcomes;
use crate::lines::extended_line;
use crate::reports::block_report;
use scasp_answers::{Block, Entries, Entry};
use scasp_io::{OutputErr, Sink, write_all};
use scasp_name::Names;
use scasp_syntax::Program;
use scasp_tables::Domain;
use std::alloc::Global;

/// Writes the text of a block, and tells how its extension ends.
fn extend_block<K: Sink>(
    alloc: Global,
    program: &Program,
    names: &Names,
    domain: &Domain,
    block: &Block,
    out: &mut K,
) -> Result<Extended, OutputErr>
    ensures end { IfOk result (λ end. end ≡ ends.end_by (outcome_of program.now (items domain.now) (certificate_of block.now.cert))) }
    ensures took { TookBytes result (K.taken out.old) (K.taken out.new) (spec.block_text names.now (outcome_of program.now (items domain.now) (certificate_of block.now.cert)) block.now.answer (certificate_of block.now.cert)) }
    ensures counted { Counted result (K.faults out.old) (K.faults out.new) }
    ensures counts { K.faults out.old ≤ K.faults out.new }
{
    let report = block_report(alloc, program, names, domain, block)?;
    write_all(out, report.text.as_slice())?;
    Ok(report.end)
}

/// Writes the text of the entry, where it is a block, and tells how its extension ends.
#[tactic(auto, using(scasp_command_check::proofs::TookLemmas::took_line, scasp_command_check::proofs::TookLemmas::took_none))]
fn extend_entry<K: Sink>(
    alloc: Global,
    program: &Program,
    names: &Names,
    domain: &Domain,
    entry: &Entry,
    out: &mut K,
) -> Result<Option<Extended>, OutputErr>
    ensures ends { IfOk result (λ found. inside.ends_in found ≡ ends.entry_ends program.now (items domain.now) (entry_of entry.now)) }
    ensures took { Took result (K.taken out.old) (K.taken out.new) (spec.entry_texts names.now program.now (items domain.now) (entry_of entry.now)) }
    ensures counted { Counted result (K.faults out.old) (K.faults out.new) }
    ensures counts { K.faults out.old ≤ K.faults out.new }
{
    match entry {
        Entry::Block(block) => {
            let end = extend_block(alloc, program, names, domain, block, out)?;
            Ok(Some(end))
        }
        Entry::Ended(_, _) | Entry::Rejected(_, _, _, _) => Ok(None),
    }
}

/// Writes the texts of all blocks.
fn extend_entries<K: Sink>(
    alloc: Global,
    program: &Program,
    names: &Names,
    entries: &Entries,
    domain: &Domain,
    out: &mut K,
) -> Result<Tally, OutputErr>
    ensures tally { IfOk result (λ tally. tally ≡ inside.tally_of (ends.block_ends program.now (items domain.now) (map entry_of entries.now))) }
    ensures took { Took result (K.taken out.old) (K.taken out.new) (spec.block_texts names.now program.now (items domain.now) (map entry_of entries.now)) }
    ensures counted { Counted result (K.faults out.old) (K.faults out.new) }
    ensures counts { K.faults out.old ≤ K.faults out.new }
{
    let mut tally = Tally {
        models: 0,
        extended: Extended::Models,
    };
    for entry in entries.as_slice() {
        let end = extend_entry(alloc, program, names, domain, entry, out)?;
        tally = tally.with_ends(end)?;
    }
    Ok(tally)
}

/// Writes the last line.
fn write_extended<K: Sink>(alloc: Global, models: u64, out: &mut K) -> Result<(), OutputErr>
    ensures took { TookBytes result (K.taken out.old) (K.taken out.new) (spec.extended_line models) }
    ensures counted { Counted result (K.faults out.old) (K.faults out.new) }
    ensures counts { K.faults out.old ≤ K.faults out.new }
{
    let line = extended_line(alloc, models)?;
    write_all(out, line.as_slice())?;
    Ok(())
}

/// Writes what comes of extending each block of an answer file over the domain, where its free variables have the values of its
/// sample: as soon as it stands the text of each, and then how many models there are. Tells how that ends. The names of the program,
/// the answers and the domain stand in the table.
///
/// # Errors
///
/// A write that failed; want of memory.
pub fn extend_blocks<K: Sink>(
    alloc: Global,
    program: &Program,
    names: &Names,
    entries: &Entries,
    domain: &Domain,
    out: &mut K,
) -> Result<Extended, OutputErr>
    ensures ok { OnOk result (K.taken out.new ≡ behind (K.taken out.old) (spec.extend_text names.now program.now (items domain.now) (map entry_of entries.now))) }
    ensures extended { IfOk result (λ extended. extended ≡ ends.extended_of program.now (items domain.now) (map entry_of entries.now)) }
    // Before memory was wanting, the texts of the first blocks were taken whole.
    ensures memory { IsErrOf result OutputErr.Memory → TakesLines (K.taken out.old) (K.taken out.new) (spec.block_texts names.now program.now (items domain.now) (map entry_of entries.now)) }
    ensures write { IsErrOf result OutputErr.Write → TakesPrefix (K.taken out.old) (K.taken out.new) (spec.extend_text names.now program.now (items domain.now) (map entry_of entries.now)) }
    ensures cause { IsErrOf result OutputErr.Write → Rose (K.faults out.old) (K.faults out.new) }
    ensures counts { K.faults out.old ≤ K.faults out.new }
    // What a text says holds of the certificate, whatever came of the writing.
    ensures says { All (KeepsOutcome program.now (items domain.now)) (map entry_of entries.now) }
{
    see_outcomes(entries, domain);
    let tally = extend_entries(alloc, program, names, entries, domain, out)?;
    write_extended(alloc, tally.models, out)?;
    Ok(tally.extended)
}
