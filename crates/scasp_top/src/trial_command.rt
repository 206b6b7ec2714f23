//! The command `trial`.
ghost use Rattle.std.specs.Prelude.{◌≡◌, Some, IfOk};
ghost use Rattle.scasp_command_words.specs.declared.command.Command.TheVariants as command;
ghost use Rattle.scasp_top.specs.Ends as spec;
ghost use Rattle.scasp_command_inputs.specs.Halts.{IfLine};
ghost use Rattle.scasp_command_inputs.specs.Inputs.{Outside};
ghost use Rattle.scasp_top.specs.Outputs.{Outputs, Tries, TriesNodes};
ghost use Rattle.scasp_command_inputs.specs.Reports.{Reports};

use scasp_command_inputs::{Halt, Status, read_text, tell};
use scasp_command_trial::{Trial, trial_line, try_first};
use scasp_gen::trial_program;
use scasp_io::Sink;
use scasp_list::Memory;
use scasp_name::Names;
use scasp_syntax::Program;
use std::alloc::Global;
use std::hash::RandomState;

/// How many calls a trial may make.
const TRIAL_BUDGET: u64 = 50_000;

/// The status of a trial that came to this.
fn trial_status(trial: Trial) -> Status
    ensures { result ≡ spec.trial_status trial }
{
    match trial {
        Trial::Right { .. } => Status::Done,
        Trial::Ended => Status::NoAnswer,
        Trial::Spent => Status::Spent,
        Trial::Overflow => Status::Overflow,
    }
}

/// The line of the trial of this program.
fn program_line(alloc: Global, n: u32, program: &Program, names: &Names) -> Result<Halt, Memory>
    ensures { IfOk result (λ halt. IfLine halt (Tries n program.now names.now)) }
{
    let trial = try_first(alloc, program, TRIAL_BUDGET, names.len())?;
    let line = trial_line(alloc, n, trial)?;
    Ok(Halt::Line(line, trial_status(trial)))
}

/// The line of the trial of so many nodes; or, what does not occur, of the first fault of its program.
fn trial_of(alloc: Global, n: u32, keys: RandomState) -> Result<Halt, Memory>
    ensures { IfOk result (λ halt. IfLine halt (TriesNodes n)) }
{
    let text = trial_program(alloc, n)?;
    match read_text(alloc, text.as_slice(), keys) {
        Ok((program, names)) => program_line(alloc, n, &program, &names),
        Err(halt) => Ok(halt),
    }
}

/// What is printed for the trial of so many nodes.
fn trial_halt(alloc: Global, n: u32, keys: RandomState) -> Halt
    ensures { IfLine result (TriesNodes n) }
{
    match trial_of(alloc, n, keys) {
        Ok(halt) => halt,
        Err(Memory) => Halt::Memory,
    }
}

/// Tries the program of so many nodes, whose names are hashed by the keys, and prints what it comes to.
pub(crate) fn try_nodes<K: Sink>(alloc: Global, n: u32, keys: RandomState, out: &mut K) -> Status
    ensures { (o : Outside) → Reports (Outputs (Some (command.Trial n)) o) (K.taken out.old) (K.taken out.new) (K.faults out.old) (K.faults out.new) result }
{
    tell(&trial_halt(alloc, n, keys), out)
}
