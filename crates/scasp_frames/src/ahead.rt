//! What comes next: whether a task costs a call, and whether it ends a case.
ghost use Rattle.std.specs.Prelude.{◌≡◌};
ghost use Rattle.scasp_search_rules.specs.Successors.Replacing.{is_close};
ghost use Rattle.scasp_search_rules.specs.Successors.Search.{costs, is_call, waits};
ghost use Rattle.scasp_search_rules.specs.declared.states.state.State.{State};

use scasp_search_rules::Task;
use scasp_syntax::FlatItem;

/// Whether the item is a call.
pub(crate) fn is_call(item: &FlatItem) -> bool
    ensures { result ≡ is_call item.now }
{
    match item {
        FlatItem::Call(_) => true,
        FlatItem::Test(_) => false,
    }
}

/// Whether the task costs a call, where a remainder of the innermost cover waits or not.
pub(crate) fn costs(task: &Task, is_waiting: bool) -> bool
    ensures { (s : State) → waits s.covers ≡ is_waiting → result ≡ costs s task.now }
{
    match task {
        Task::Show(item) => is_call(item),
        Task::Check { .. } | Task::Begin { .. } => true,
        Task::Close => is_waiting,
        Task::Equate(_, _)
        | Task::Assume(_)
        | Task::Differ(_, _)
        | Task::Become { .. }
        | Task::Avoid { .. }
        | Task::Shape { .. }
        | Task::Cover { .. }
        | Task::Void
        | Task::Leave => false,
    }
}

/// Whether the task ends a case.
pub(crate) fn is_close(task: &Task) -> bool
    ensures { result ≡ is_close task.now }
{
    match task {
        Task::Close => true,
        Task::Show(_)
        | Task::Equate(_, _)
        | Task::Assume(_)
        | Task::Differ(_, _)
        | Task::Become { .. }
        | Task::Avoid { .. }
        | Task::Shape { .. }
        | Task::Cover { .. }
        | Task::Check { .. }
        | Task::Begin { .. }
        | Task::Void
        | Task::Leave => false,
    }
}
