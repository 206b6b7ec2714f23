//! Up to the next call: the states that cost nothing.
ghost use Rattle.std.specs.Prelude.{◌≡◌, ℕ};
ghost use Rattle.scasp_search_walk.specs.Inside.{Arrives, Passes};

use crate::frontier::{Frontier, Look};
use scasp_search_constraints::SearchErr;

/// What stands ahead.
#[derive(Drop)]
pub(crate) enum Ahead<A> {
    /// An answer, which was taken away.
    Answer(A),
    /// The first state costs a call.
    Pays,
    /// There is no state.
    Ended,
}

/// Looks at the first of the states, and goes on by it where it costs nothing.
fn pass<A: Drop, F: Frontier<A>>(front: &mut F) -> Result<Option<Ahead<A>>, SearchErr>
    ensures passes { (budget calls : ℕ) → Passes F.value_of (F.machine (F.problem front.old)) budget calls (F.states front.old) (F.states front.new) result }
    ensures same { F.problem front.new ≡ F.problem front.old }
{
    match front.look()? {
        Look::Free => {
            front.step()?;
            Ok(None)
        }
        Look::Answer(answer) => Ok(Some(Ahead::Answer(answer))),
        Look::Nothing => Ok(None),
        Look::Pays => Ok(Some(Ahead::Pays)),
        Look::Ended => Ok(Some(Ahead::Ended)),
    }
}

/// Goes on up to the next answer, the next state that costs a call, or the end. The states that cost nothing are counted; 2^64
/// of them one after the other are told as want of memory.
pub(crate) fn arrive<A: Drop, F: Frontier<A>>(front: &mut F) -> Result<Ahead<A>, SearchErr>
    ensures arrives { (budget calls : ℕ) → Arrives F.value_of (F.machine (F.problem front.old)) budget calls (F.states front.old) (F.states front.new) result }
    ensures same { F.problem front.new ≡ F.problem front.old }
{
    let mut steps: u64 = 0;
    loop {
        if let Some(ahead) = pass(front)? {
            return Ok(ahead);
        }
        if steps == u64::MAX {
            return Err(SearchErr::Memory);
        }
        steps += 1;
    }
}
