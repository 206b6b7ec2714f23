//! The command `run`.
ghost use Rattle.std.specs.Prelude.{◌≡◌, ℕ, Some};
ghost use Rattle.scasp_command_words.specs.declared.command.Command.TheVariants as command;
ghost use Rattle.scasp_command_words.specs.declared.format.Format.{Format as ThisFormat};
ghost use Rattle.scasp_top.specs.Ends as spec;
ghost use Rattle.scasp_command_inputs.specs.Inputs.{outside};
ghost use Rattle.scasp_top.specs.Outputs.{asked_answers, requested, Outputs, Runs};
ghost use Rattle.scasp_command_inputs.specs.Reports.{Reports};

use scasp_command_inputs::{Status, program_in_file, tell};
use scasp_command_run::{Request, RunEnd, run};
use scasp_command_words::Format;
use scasp_io::{Files, OutputErr, Sink};
use scasp_name::Names;
use scasp_syntax::Program;
use std::alloc::Global;

/// The status of a run that ended so.
fn run_status(end: RunEnd) -> Status
    ensures { result ≡ spec.run_status (Some end) }
{
    match end {
        RunEnd::Done => Status::Done,
        RunEnd::NoAnswer => Status::NoAnswer,
        RunEnd::Spent => Status::Spent,
        RunEnd::Overflow => Status::Overflow,
    }
}

/// How many answers are asked for: as many as the number says, or all where it is 0.
fn asked_answers(number: u64) -> Option<u64>
    ensures { result ≡ asked_answers number }
{
    if number == 0 { None } else { Some(number) }
}

/// What is asked of a run; 0 asks for all answers.
pub(crate) fn requested(budget: u64, answers: u64, format: Format) -> Request
    ensures { result ≡ requested budget answers format }
{
    Request {
        budget,
        answers: asked_answers(answers),
        format,
    }
}

/// Runs the program.
fn run_program<K: Sink>(
    alloc: Global,
    program: &Program,
    names: Names,
    request: Request,
    out: &mut K,
) -> Status
    ensures { Reports (Runs program.now names request) (K.taken out.old) (K.taken out.new) (K.faults out.old) (K.faults out.new) result }
{
    match run(alloc, program, names, request, out) {
        Ok(end) => run_status(end),
        Err(OutputErr::Write) => Status::Write,
        Err(OutputErr::Memory) => Status::Memory,
    }
}

/// Runs the program in a file.
pub(crate) fn run_file<F: Files, K: Sink>(
    alloc: Global,
    file: &str,
    request: Request,
    files: &mut F,
    out: &mut K,
) -> Status
    ensures { (budget answers : ℕ) (format : ThisFormat) → request ≡ requested budget answers format
        → Reports (Outputs (Some (command.Run file.now budget answers format)) (outside (F.told files.old) (F.faults files.old) (F.faults files.new))) (K.taken out.old) (K.taken out.new) (K.faults out.old) (K.faults out.new) result }
{
    match program_in_file(alloc, file, files) {
        Ok((program, names)) => run_program(alloc, &program, names, request, out),
        Err(halt) => tell(&halt, out),
    }
}
