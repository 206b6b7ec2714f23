//! Steps whose rows later ones use.
ghost use Rattle.std.specs.Prelude.{◌≡◌, ◌+◌, ◌++◌, IfOk, OnOk, map};
ghost use Rattle.std.specs.List.{list_any};
ghost use Rattle.scasp_hint_steps.specs.Pruned.{number_without, pruned, pruned_hint, put, step_without, uses};

use scasp_list::Memory;
use scasp_num::{Step, StepLists, Steps};
use scasp_syntax::Hint;
use std::alloc::Global;

/// The number of a row, where the row with the number `gone` is left out.
fn number_without(gone: u64, number: u64) -> u64
    ensures { result ≡ number_without gone number }
{
    if gone < number { number - 1 } else { number }
}

/// The step, where the row with the number `gone` is left out.
fn step_without(gone: u64, step: Step) -> Step
    ensures { result ≡ step_without gone step }
{
    Step {
        a: step.a,
        p: number_without(gone, step.p),
        b: step.b,
        q: number_without(gone, step.q),
    }
}

/// Whether one of the steps uses the row with this number.
fn is_used(number: u64, steps: &[Step]) -> bool
    ensures { result ≡ list_any (uses number) steps.now }
{
    steps
        .iter()
        .any(|step| step.p == number || step.q == number)
}

/// Puts the steps behind the others, where the row with the number `gone` is left out.
fn push_without(made: &mut Steps, gone: u64, steps: &[Step]) -> Result<(), Memory>
    ensures { OnOk result (made.new ≡ made.old ++ map (step_without gone) steps.now) }
{
    for step in steps {
        made.push(step_without(gone, *step))?;
    }
    Ok(())
}

/// Puts the steps behind the others.
fn push_all(made: &mut Steps, steps: &[Step]) -> Result<(), Memory>
    ensures { OnOk result (made.new ≡ made.old ++ steps.now) }
{
    for step in steps {
        made.push(*step)?;
    }
    Ok(())
}

/// The steps with one before them, which makes the row with this number: it stays if it is the last one, or its row is used.
fn put(alloc: Global, number: u64, step: Step, later: &[Step]) -> Result<Steps, Memory>
    ensures { IfOk result (λ made. made ≡ put number step later.now) }
{
    let mut made = Steps::new(alloc);
    if later.is_empty() || is_used(number, later) {
        made.push(step)?;
        push_all(&mut made, later)?;
    } else {
        push_without(&mut made, number, later)?;
    }
    Ok(made)
}

/// The number of the row that the step at a place makes, where the first one makes the row with the number `first`. A number
/// past 64 bits counts as want of memory.
fn number_at(first: u64, place: usize) -> Result<u64, Memory>
    ensures { IfOk result (λ number. number ≡ first + place) }
{
    match first.checked_add(place as u64) {
        Some(number) => Ok(number),
        None => Err(Memory),
    }
}

/// The steps that make the rows from the number `first` on, without those whose rows no later one uses.
fn pruned(alloc: Global, first: u64, steps: &[Step]) -> Result<Steps, Memory>
    ensures { IfOk result (λ made. made ≡ pruned first steps.now) }
{
    let mut later = Steps::new(alloc);
    for place in (0..steps.len()).rev() {
        later = put(
            alloc,
            number_at(first, place)?,
            steps[place],
            later.as_slice(),
        )?;
    }
    Ok(later)
}

/// Each of the lists of steps without those whose rows no later one uses.
fn pruned_lists(alloc: Global, first: u64, lists: &[Steps]) -> Result<StepLists, Memory>
    ensures { IfOk result (λ made. made ≡ map (pruned first) lists.now) }
{
    let mut made = StepLists::new(alloc);
    for steps in lists {
        made.push(pruned(alloc, first, steps.as_slice())?)?;
    }
    Ok(made)
}

/// The hint of a list that asks about so many rows, without the steps whose rows no later one uses.
pub(crate) fn pruned_hint(alloc: Global, rows: u64, hint: &Hint) -> Result<Hint, Memory>
    ensures { IfOk result (λ made. made ≡ pruned_hint rows hint.now) }
{
    let first = number_at(rows, 1)?;
    match hint {
        Hint::Terms => Ok(Hint::Terms),
        Hint::Rows(steps) => Ok(Hint::Rows(pruned(alloc, first, steps.as_slice())?)),
        Hint::Same(number, lists) => {
            let above = number_at(first, 1)?;
            Ok(Hint::Same(*number, pruned_lists(alloc, above, lists.as_slice())?))
        }
    }
}
