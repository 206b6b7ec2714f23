//! Literals that repeat one above them or one that is done.
ghost use Rattle.std.specs.Prelude.{◌≡◌, IfOk, OnOk};
ghost use Rattle.scasp_search_state.specs.Going.{Leaves};
ghost use Rattle.scasp_search_rules.specs.Successors.Calls.{looped};
ghost use Rattle.scasp_search_rules.specs.Successors.Items.{with_line};

use scasp_list::Memory;
use scasp_search_rules::{Line, Repeated};
use scasp_search_state::Situation;
use scasp_syntax::{DeepCopy, Lit};
use std::alloc::Global;

fn tell_loop<M: Situation>(
    alloc: Global,
    at: &mut M,
    lit: &Lit,
    repeated: Repeated,
) -> Result<(), Memory>
    ensures now { OnOk result (M.now at.new ≡ with_line (M.now at.old) (Line.Loop lit.now repeated.number)) }
    ensures points { OnOk result (M.points at.new ≡ M.points at.old) }
{
    let line = Line::Loop {
        lit: lit.copy(alloc)?,
        literal: repeated.number,
    };
    at.tell(line)
}

/// Whether a call that repeats a literal above it leaves a state.
pub fn looped<M: Situation>(
    alloc: Global,
    at: &mut M,
    lit: &Lit,
    repeated: Repeated,
) -> Result<bool, Memory>
    ensures now { IfOk result (λ went. Leaves went (looped (M.now at.old) lit.now repeated) (M.now at.new)) }
    ensures points { IfOk result (λ _. M.points at.new ≡ M.points at.old) }
{
    if !lit.positive {
        tell_loop(alloc, at, lit, repeated)?;
        return Ok(true);
    }
    if !repeated.is_behind_negation {
        return Ok(false);
    }
    tell_loop(alloc, at, lit, repeated)?;
    at.loops_out()?;
    Ok(true)
}

/// The literal is that of the number, seen again.
pub(crate) fn see_again<M: Situation>(
    alloc: Global,
    at: &mut M,
    lit: &Lit,
    literal: u64,
) -> Result<(), Memory>
    ensures now { OnOk result (M.now at.new ≡ with_line (M.now at.old) (Line.Seen lit.now literal)) }
    ensures points { OnOk result (M.points at.new ≡ M.points at.old) }
{
    let line = Line::Seen {
        lit: lit.copy(alloc)?,
        literal,
    };
    at.tell(line)
}
