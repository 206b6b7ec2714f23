//! Rows that the bindings of a state cannot replace within the range of the numbers.
ghost use Rattle.std.specs.Prelude.{◌≡◌, IfOk};
ghost use Rattle.scasp_search_rules.specs.Successors.Replacing.{close_overflows, closes, end_overflows, has_universals, is_close, lines_overflow, tells_unreplaced};
ghost use Rattle.scasp_unify.specs.Solving.{sub_of};

use scasp_list::Memory;
use scasp_sample::{any_unreplaced, is_unreplaced};
use scasp_search_rules::{Cover, Line, State, Task};
use scasp_unify::Binding;
use std::alloc::Global;

/// Whether the line tells such a row.
fn tells_unreplaced(alloc: Global, bindings: &[Binding], line: &Line) -> Result<bool, Memory>
    ensures { IfOk result (λ answer. answer ≡ tells_unreplaced (sub_of bindings.now) line.now) }
{
    match line {
        Line::Test(constraint) => is_unreplaced(alloc, bindings, constraint),
        Line::Split { constraint, .. } => is_unreplaced(alloc, bindings, constraint),
        Line::Pos { .. }
        | Line::Neg { .. }
        | Line::Loop { .. }
        | Line::Seen { .. }
        | Line::Rule { .. }
        | Line::Check { .. }
        | Line::Void
        | Line::Leaf(_)
        | Line::Head(_) => Ok(false),
    }
}

fn lines_overflow(alloc: Global, state: &State) -> Result<bool, Memory>
    ensures { IfOk result (λ answer. answer ≡ lines_overflow state.now) }
{
    for line in state.lines.as_slice() {
        if tells_unreplaced(alloc, state.bound.as_slice(), line)? {
            return Ok(true);
        }
    }
    Ok(false)
}

/// Whether the bindings cannot replace a row of a state with nothing left to do.
pub(crate) fn end_overflows(alloc: Global, state: &State) -> Result<bool, Memory>
    ensures { IfOk result (λ answer. answer ≡ end_overflows state.now) }
{
    if any_unreplaced(alloc, state.bound.as_slice(), state.given.as_slice())? {
        return Ok(true);
    }
    lines_overflow(alloc, state)
}

fn is_close(task: &Task) -> bool
    ensures { result ≡ is_close task.now }
{
    match task {
        Task::Close => true,
        Task::Show(_)
        | Task::Equate(_, _)
        | Task::Assume(_)
        | Task::Differ(_, _)
        | Task::Become { .. }
        | Task::Avoid { .. }
        | Task::Shape { .. }
        | Task::Cover { .. }
        | Task::Check { .. }
        | Task::Begin { .. }
        | Task::Void
        | Task::Leave => false,
    }
}

/// Whether the first task ends a case.
fn closes(tasks: &[Task]) -> bool
    ensures { result ≡ closes tasks.now }
{
    match tasks.split_first() {
        Some((task, _)) => is_close(task),
        None => false,
    }
}

/// Whether the innermost cover has universal variables.
fn has_universals(covers: &[Cover]) -> bool
    ensures { result ≡ has_universals covers.now }
{
    match covers.split_first() {
        Some((cover, _)) => cover.universals.len() > 0,
        None => false,
    }
}

/// Whether the first task ends a case with universal variables, and the bindings cannot replace a row of its lines.
pub fn close_overflows(alloc: Global, state: &State) -> Result<bool, Memory>
    ensures { IfOk result (λ answer. answer ≡ close_overflows state.now state.now.work) }
{
    if closes(state.work.as_slice()) && has_universals(state.covers.as_slice()) {
        lines_overflow(alloc, state)
    } else {
        Ok(false)
    }
}
