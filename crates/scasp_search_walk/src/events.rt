//! What comes of a slice.

/// What comes within so many calls.
#[derive(Drop)]
pub enum Advance<A> {
    Answer(A),
    /// The next call would be one more than the slice has.
    Paused,
    /// There is no further answer.
    Ended,
    /// The next call would be one more than the budget has.
    Spent,
    /// A list of constraints, or a sample, whose arithmetic overflows.
    Overflow,
    Memory,
}
