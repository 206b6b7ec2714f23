//! A slice of a session's search.
ghost use Rattle.std.specs.Prelude.{◌≡◌, ◌-◌, IfOk, unwrap_or};
ghost use Rattle.scasp_serve_replies.specs.Inside.{Found};

use crate::coming::{Coming, Step, step_of};
use scasp_list::Memory;
use scasp_sessions::Sessions;
use scasp_syntax::Program;
use std::alloc::Global;

/// How many calls of a slice are left, where so many were spent before and are spent now.
fn left_of(slice: u64, before: Option<u64>, now: Option<u64>) -> u64
    ensures { result ≡ slice - (unwrap_or now 0 - unwrap_or before 0) }
{
    let spent = now.unwrap_or(0).saturating_sub(before.unwrap_or(0));
    slice.saturating_sub(spent)
}

/// What comes within so many calls of the session of this number; none where no such session is open.
///
/// # Errors
///
/// Want of memory.
pub(crate) fn go_on(
    alloc: Global,
    program: &Program,
    sessions: &mut Sessions,
    id: u64,
    calls: u64,
) -> Result<Option<Coming>, Memory>
    ensures { IfOk result (λ found. Found program.now sessions.old id calls found sessions.new) }
{
    let mut left = calls;
    for _tree in 0..u64::MAX {
        let before = sessions.calls(id);
        let Ok(advance) = sessions.next(id, left) else {
            return Ok(None);
        };
        match step_of(alloc, program, advance)? {
            Step::Comes(coming) => return Ok(Some(coming)),
            Step::Passes => left = left_of(left, before, sessions.calls(id)),
        }
    }
    Err(Memory)
}
