//! The files of a command.
ghost use Rattle.std.specs.Prelude.{◌≡◌, ◌≤◌, ℕ, List, Some, Ok, IfOk, IfErr, map};
ghost use Rattle.scasp_abduce.specs.Translation.{IsTranslation};
ghost use Rattle.scasp_reader.specs.Programs.Programs.{program_in, reading_of};
ghost use Rattle.scasp_answers.specs.Files.View.{entry_of};
ghost use Rattle.scasp_command_inputs.specs.Halts.{IfLine};
ghost use Rattle.scasp_answers.specs.Files.Texts.{with_names};
ghost use Rattle.scasp_command_inputs.specs.Inputs.{answers_in, outside, HasAnswers, IsNoAnswers, IsNoProgram, IsNoProgramBehind, IsProgram, IsProgramBehind, IsWritten, IsWrittenBehind, RefusesAnswers, RefusesProgram, RefusesProgramBehind};

use crate::halt::{Halt, line};
use crate::refusals::{answers_refusal, program_refusal};
use crate::status::Status;
use scasp_abduce::translate;
use scasp_answers::{
    AnswerErr, AnswerFault, AnswerKind, BYTE_LIMIT as ANSWER_LIMIT, Entries, read_answers,
};
use scasp_io::{Files, ReadErr, read_file};
use scasp_list::Memory;
use scasp_name::Names;
use scasp_reader::{BYTE_LIMIT, read_program};
use scasp_reader_terms::{Count, Fault, Kind, Stop};
use scasp_syntax::Program;
use std::alloc::Global;
use std::hash::RandomState;

/// The program that the bytes spell behind these names, as it is written, and the table of names then; or the line of the first fault.
fn read_text_behind(alloc: Global, bytes: &[u8], names: Names) -> Result<(Program, Names), Halt>
    ensures ok { IfOk result (λ x. program_in names bytes.now ≡ Ok (reading_of x)) }
    ensures err { IfErr result (λ halt. IfLine halt (RefusesProgramBehind names bytes.now)) }
{
    match read_program(alloc, bytes, names) {
        Ok(read) => Ok(read),
        Err(Stop::At(fault)) => Err(program_refusal(alloc, fault)),
        Err(Stop::Memory) => Err(Halt::Memory),
    }
}

/// The translation of the program, in which no predicate is abducible, and the table with its new names.
fn translated(alloc: Global, program: Program, names: Names) -> Result<(Program, Names), Halt>
    ensures ok { IfOk result (λ x. IsTranslation names program x.0 x.1) }
    ensures err { IfErr result (λ halt. halt ≡ Halt.Memory) }
{
    match translate(alloc, program, names) {
        Ok(read) => Ok(read),
        Err(Memory) => Err(Halt::Memory),
    }
}

/// The translation of the program that the bytes spell behind these names, and the table of names then; or the line of the
/// first fault.
fn next_text(alloc: Global, bytes: &[u8], names: Names) -> Result<(Program, Names), Halt>
    ensures ok { IfOk result (λ x. IsProgramBehind names (Some bytes.now) x.0 x.1) }
    ensures err { IfErr result (λ halt. IfLine halt (RefusesProgramBehind names bytes.now)) }
{
    match read_text_behind(alloc, bytes, names) {
        Ok((program, names)) => translated(alloc, program, names),
        Err(halt) => Err(halt),
    }
}

/// The translation of the program that the bytes spell, and the table of names behind it, which hashes them by the keys; or the
/// line of the first fault.
pub fn read_text(alloc: Global, bytes: &[u8], keys: RandomState) -> Result<(Program, Names), Halt>
    ensures ok { IfOk result (λ x. IsProgram (Some bytes.now) x.0 x.1) }
    ensures err { IfErr result (λ halt. IfLine halt (RefusesProgram bytes.now)) }
{
    let Ok(names) = Names::new(alloc, keys) else {
        return Err(Halt::Memory);
    };
    next_text(alloc, bytes, names)
}

/// The program as it is written in a file, read behind these names, and the table of names then; or the line that tells why
/// there is none.
fn next_written_in_file<F: Files>(
    alloc: Global,
    file: &str,
    names: Names,
    files: &mut F,
) -> Result<(Program, Names), Halt>
    ensures ok { IfOk result (λ x. IsWrittenBehind names (F.told files.old file.now) x.0 x.1) }
    ensures err { IfErr result (λ halt. IfLine halt (IsNoProgramBehind names (outside (F.told files.old) (F.faults files.old) (F.faults files.new)) file.now)) }
    ensures stays { (other : List ℕ) → F.told files.new other ≡ F.told files.old other }
    ensures counts { (other : List ℕ) → F.faults files.old other ≤ F.faults files.new other }
{
    match read_file(alloc, files, file, BYTE_LIMIT as u64) {
        Ok(bytes) => read_text_behind(alloc, bytes.as_slice(), names),
        Err(ReadErr::Fault) => Err(line(alloc, b"read program\n", Status::Read)),
        Err(ReadErr::TooLong) => {
            let (at, kind) = (BYTE_LIMIT as u64, Kind::Limit(Count::Bytes));
            Err(program_refusal(alloc, Fault { at, kind }))
        }
        Err(ReadErr::Memory) => Err(Halt::Memory),
    }
}

/// The program as it is written in a file, with its abducible predicates, and its table of names; or the line that tells why
/// there is none.
pub fn written_in_file<F: Files>(
    alloc: Global,
    file: &str,
    files: &mut F,
) -> Result<(Program, Names), Halt>
    ensures ok { IfOk result (λ x. IsWritten (F.told files.old file.now) x.0 x.1) }
    ensures err { IfErr result (λ halt. IfLine halt (IsNoProgram (outside (F.told files.old) (F.faults files.old) (F.faults files.new)) file.now)) }
    ensures stays { (other : List ℕ) → F.told files.new other ≡ F.told files.old other }
    ensures counts { (other : List ℕ) → F.faults files.old other ≤ F.faults files.new other }
{
    let Ok(names) = Names::new(alloc, files.hash_keys()) else {
        return Err(Halt::Memory);
    };
    next_written_in_file(alloc, file, names, files)
}

/// The translation of the program in a file, read behind these names, and the table of names then; or the line that tells why
/// there is none.
pub fn next_program_in_file<F: Files>(
    alloc: Global,
    file: &str,
    names: Names,
    files: &mut F,
) -> Result<(Program, Names), Halt>
    ensures ok { IfOk result (λ x. IsProgramBehind names (F.told files.old file.now) x.0 x.1) }
    ensures err { IfErr result (λ halt. IfLine halt (IsNoProgramBehind names (outside (F.told files.old) (F.faults files.old) (F.faults files.new)) file.now)) }
    ensures stays { (other : List ℕ) → F.told files.new other ≡ F.told files.old other }
    ensures counts { (other : List ℕ) → F.faults files.old other ≤ F.faults files.new other }
{
    match next_written_in_file(alloc, file, names, files) {
        Ok((program, names)) => translated(alloc, program, names),
        Err(halt) => Err(halt),
    }
}

/// The translation of the program in a file, and the table of names behind it; or the line that tells why there is none.
pub fn program_in_file<F: Files>(
    alloc: Global,
    file: &str,
    files: &mut F,
) -> Result<(Program, Names), Halt>
    ensures ok { IfOk result (λ x. IsProgram (F.told files.old file.now) x.0 x.1) }
    ensures err { IfErr result (λ halt. IfLine halt (IsNoProgram (outside (F.told files.old) (F.faults files.old) (F.faults files.new)) file.now)) }
    ensures stays { (other : List ℕ) → F.told files.new other ≡ F.told files.old other }
    ensures counts { (other : List ℕ) → F.faults files.old other ≤ F.faults files.new other }
{
    let Ok(names) = Names::new(alloc, files.hash_keys()) else {
        return Err(Halt::Memory);
    };
    next_program_in_file(alloc, file, names, files)
}

/// What the bytes have behind a header, read behind these names, and the table of names then; or the line of the first fault.
fn read_blocks(alloc: Global, bytes: &[u8], mut names: Names) -> Result<(Entries, Names), Halt>
    ensures ok { IfOk result (λ x. answers_in names bytes.now ≡ Ok (map entry_of x.0)) }
    ensures table { IfOk result (λ x. x.1 ≡ with_names names bytes.now) }
    ensures err { IfErr result (λ halt. IfLine halt (RefusesAnswers names bytes.now)) }
{
    match read_answers(alloc, bytes, &mut names) {
        Ok(entries) => Ok((entries, names)),
        Err(AnswerErr::At(fault)) => Err(answers_refusal(alloc, fault)),
        Err(AnswerErr::Memory) => Err(Halt::Memory),
    }
}

/// The entries of an answer file, read behind the names of a program, and the table of names then; or the line that tells why
/// there are none.
pub fn answers_in_file<F: Files>(
    alloc: Global,
    file: &str,
    names: Names,
    files: &mut F,
) -> Result<(Entries, Names), Halt>
    ensures ok { IfOk result (λ x. HasAnswers (F.told files.old file.now) names (map entry_of x.0) x.1) }
    ensures err { IfErr result (λ halt. IfLine halt (IsNoAnswers (outside (F.told files.old) (F.faults files.old) (F.faults files.new)) file.now names)) }
    ensures stays { (other : List ℕ) → F.told files.new other ≡ F.told files.old other }
    ensures counts { (other : List ℕ) → F.faults files.old other ≤ F.faults files.new other }
{
    match read_file(alloc, files, file, ANSWER_LIMIT as u64) {
        Ok(bytes) => read_blocks(alloc, bytes.as_slice(), names),
        Err(ReadErr::Fault) => Err(line(alloc, b"read answers\n", Status::Read)),
        Err(ReadErr::TooLong) => {
            let (at, kind) = (ANSWER_LIMIT as u64, AnswerKind::Limit);
            Err(answers_refusal(alloc, AnswerFault { at, kind }))
        }
        Err(ReadErr::Memory) => Err(Halt::Memory),
    }
}
