//! What was told of each session.
ghost use Rattle.std.specs.Prelude.{◌≡◌, ◌+◌, IfOk};
ghost use Rattle.scasp_serve_replies.specs.Tallies as spec;

use scasp_list::Memory;

/// What was told of a session.
#[derive(Clone, Copy, Debug, PartialEq, Eq)]
pub struct Tally {
    /// How many answers.
    pub answers: u64,
    /// Whether an overflow.
    pub overflowed: bool,
}

/// What was told of a session that is new.
pub(crate) const NOTHING: Tally = Tally {
    answers: 0,
    overflowed: false,
};

/// What was told of the session of this number.
pub(crate) fn tally_of(tallies: &[Tally], id: u64) -> Tally
    ensures { result ≡ spec.tally_of id tallies.now }
{
    match tallies.get(id.saturating_sub(1) as usize) {
        Some(tally) => *tally,
        None => NOTHING,
    }
}

/// Notes what was told of the session of this number.
pub(crate) fn note(tallies: &mut Vec<Tally>, id: u64, tally: Tally)
    ensures { tallies.new.items ≡ spec.with_tally id tally tallies.old.items }
{
    let place = id.saturating_sub(1) as usize;
    if place < tallies.len() {
        tallies[place] = tally;
    }
}

/// The number of the next answer. There is no memory for more answers than 2^64 - 1.
pub(crate) fn next_number(tally: Tally) -> Result<u64, Memory>
    ensures { IfOk result (λ number. number ≡ tally.answers + 1) }
{
    tally.answers.checked_add(1).ok_or(Memory)
}
