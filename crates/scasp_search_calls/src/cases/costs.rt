//! Which states cost a call.
ghost use Rattle.std.specs.Prelude.{◌≡◌};
ghost use Rattle.scasp_search_rules.specs.Successors.Search.{costs, is_call, pays, waits};

use scasp_search_rules::{Cover, State, Task};
use scasp_syntax::FlatItem;

fn is_call(item: &FlatItem) -> bool
    ensures { result ≡ is_call item.now }
{
    match item {
        FlatItem::Call(_) => true,
        FlatItem::Test(_) => false,
    }
}

/// Whether a remainder of the innermost cover waits.
pub fn waits(covers: &[Cover]) -> bool
    ensures { result ≡ waits covers.now }
{
    match covers.split_first() {
        Some((cover, _)) => cover.waiting.len() > 0,
        None => false,
    }
}

fn costs(state: &State, task: &Task) -> bool
    ensures { result ≡ costs state.now task.now }
{
    match task {
        Task::Show(item) => is_call(item),
        Task::Check { .. } | Task::Begin { .. } => true,
        Task::Close => waits(state.covers.as_slice()),
        Task::Equate(_, _)
        | Task::Assume(_)
        | Task::Differ(_, _)
        | Task::Become { .. }
        | Task::Avoid { .. }
        | Task::Shape { .. }
        | Task::Cover { .. }
        | Task::Void
        | Task::Leave => false,
    }
}

/// Whether a call, a case that begins or a remainder that is taken up comes next.
pub fn pays(state: &State) -> bool
    ensures { result ≡ pays state.now }
{
    match state.work.get(0) {
        Some(task) => costs(state, task),
        None => false,
    }
}
