//! The first hint of a list, without the steps that nothing uses.
ghost use Rattle.std.specs.Prelude.{◌≡◌, ◌∷◌, [], true, if◌then◌else◌, IfOk};
ghost use Rattle.scasp_hint.specs.Finding.{overflows_in};
ghost use Rattle.scasp_hint.specs.Verdicts.{Finds};
ghost use Rattle.scasp_hint_steps.specs.Pruned.{found_pruned, row_count, shorter};

use crate::pruning::pruned_hint;
use scasp_hint::{HintErr, find, unsat};
use scasp_list::Memory;
use scasp_rows::LinErr;
use scasp_syntax::{Con, Hint};
use std::alloc::Global;

/// Whether the list asks about the constraint as a row.
fn asks_row(constraint: &Con) -> bool
    ensures { (if result then 1 else 0) ≡ row_count (constraint.now ∷ []) }
{
    match constraint {
        Con::Row(row) => !row.op().is_disequation(),
        Con::Eq(_, _) | Con::Neq(_, _) | Con::NotShape(_, _, _) | Con::Num(_) | Con::NotNum(_) => {
            false
        }
    }
}

/// How many rows the list asks about.
fn row_count(constraints: &[Con]) -> u64
    ensures { result ≡ row_count constraints.now }
{
    let mut count = 0;
    for constraint in constraints {
        if asks_row(constraint) {
            count += 1;
        }
    }
    count
}

/// The hint without the steps that nothing uses, if it shows the list so.
fn shorter(alloc: Global, constraints: &[Con], hint: Hint) -> Result<Hint, Memory>
    ensures { IfOk result (λ made. made ≡ shorter constraints.now hint) }
{
    let pruned = pruned_hint(alloc, row_count(constraints), &hint)?;
    match unsat(alloc, constraints, &pruned) {
        Ok(()) => Ok(pruned),
        Err(HintErr::Fault(_)) => Ok(hint),
        Err(HintErr::Memory) => Err(Memory),
    }
}

/// A hint that shows that the list, sorted or not, has no valuation; None where no hint does. The hint is the one that `find`
/// of `scasp_hint` gives, without the steps whose rows no later step uses.
pub fn find_pruned(alloc: Global, constraints: &[Con]) -> Result<Option<Hint>, LinErr>
    ensures exact { Finds result (found_pruned constraints.now) }
    ensures overflow { result ≡ Err LinErr.Overflow → overflows_in constraints.now ≡ true }
{
    match find(alloc, constraints)? {
        None => Ok(None),
        Some(hint) => match shorter(alloc, constraints, hint) {
            Ok(told) => Ok(Some(told)),
            Err(Memory) => Err(LinErr::Memory),
        },
    }
}
