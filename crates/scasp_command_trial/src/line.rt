//! The line of a trial.
ghost use Rattle.std.specs.Prelude.{◌≡◌, ◌++◌, IfOk, OnOk};
ghost use Rattle.scasp_command_trial.specs.Texts as spec;

use crate::first::Trial;
use scasp_list::Memory;
use scasp_print_words::{put, put_number};
use std::alloc::Global;

/// The line that sums up the trial of the program of `n` nodes.
///
/// # Errors
///
/// Want of memory.
pub fn trial_line(alloc: Global, n: u32, trial: Trial) -> Result<Vec<u8>, Memory>
    ensures { IfOk result (λ line. line.items ≡ spec.trial_line n trial) }
{
    let mut line = Vec::from_slice(alloc, b"trial ")?;
    put_number(&mut line, n as u64)?;
    put_trial(&mut line, trial)?;
    put(&mut line, "\n")?;
    Ok(line)
}

/// Puts what the trial came to at the end.
fn put_trial(line: &mut Vec<u8>, trial: Trial) -> Result<(), Memory>
    ensures { OnOk result (line.new.items ≡ line.old.items ++ spec.trial_words trial) }
{
    match trial {
        Trial::Right { calls, lines, any } => put_right(line, calls, lines, any),
        Trial::Ended => put(line, " ended"),
        Trial::Spent => put(line, " spent"),
        Trial::Overflow => put(line, " overflow"),
    }
}

/// Puts the calls and lines of an answer, and over which domains it holds, at the end.
fn put_right(line: &mut Vec<u8>, calls: u64, lines: u64, any: bool) -> Result<(), Memory>
    ensures { OnOk result (line.new.items ≡ line.old.items ++ spec.right_words calls lines any) }
{
    put(line, " calls ")?;
    put_number(line, calls)?;
    put(line, " lines ")?;
    put_number(line, lines)?;
    put_domain(line, any)
}

/// Puts over which domains a right answer holds at the end.
fn put_domain(line: &mut Vec<u8>, any: bool) -> Result<(), Memory>
    ensures { OnOk result (line.new.items ≡ line.old.items ++ spec.domain_words any) }
{
    put(line, if any { " right any" } else { " right closed" })
}
