//! What is found for a list of constraints.
ghost use Rattle.std.specs.Prelude.{◌≡◌, IfOk};
ghost use Rattle.scasp_fill.specs.Filling.Inside.Findings.{found_of};
ghost use Rattle.scasp_hint_steps.specs.Pruned.{found_pruned};

use scasp_hint_steps::find_pruned;
use scasp_list::Memory;
use scasp_rows::LinErr;
use scasp_syntax::{Con, Hint};
use std::alloc::Global;

/// What is found for a list.
#[derive(Drop)]
pub(crate) enum Finding {
    /// This hint shows it.
    Shown(Hint),
    /// No hint shows it.
    Nothing,
    /// That is not known, since a list of rows that is asked for it overflows.
    Unknown,
}

/// What is found for the list.
pub(crate) fn find_hint(alloc: Global, list: &[Con]) -> Result<Finding, Memory>
    ensures { IfOk result (λ made. found_of made ≡ found_pruned list.now) }
{
    match find_pruned(alloc, list) {
        Ok(Some(hint)) => Ok(Finding::Shown(hint)),
        Ok(None) => Ok(Finding::Nothing),
        Err(LinErr::Overflow) => Ok(Finding::Unknown),
        Err(LinErr::Memory) => Err(Memory),
    }
}
