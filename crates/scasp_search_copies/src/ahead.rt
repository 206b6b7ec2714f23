//! What comes next in a state: the case of the innermost cover, and its first task.
ghost use Rattle.std.specs.Prelude.{◌≡◌};
ghost use Rattle.scasp_search_state.specs.Words.{has_work, innermost};

use scasp_search_rules::{Cover, Task};
use scasp_search_state::Begun;

/// Whether there is a task.
pub(crate) fn has_work(tasks: &[Task]) -> bool
    ensures { result ≡ has_work tasks.now }
{
    match tasks.split_first() {
        Some(_) => true,
        None => false,
    }
}

/// The clause of the first of the covers.
pub(crate) fn innermost(covers: &[Cover]) -> Option<Begun>
    ensures { result ≡ innermost covers.now }
{
    match covers.split_first() {
        Some((cover, _)) => Some(Begun {
            clause: cover.clause,
            first: cover.first,
            checks_head: cover.checks_head,
        }),
        None => None,
    }
}
