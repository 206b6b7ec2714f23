//! How runs end.

/// How the run of all queries ended.
#[derive(Clone, Copy, Debug, PartialEq, Eq)]
pub enum RunEnd {
    /// Each query ended or was stopped, and some answer was printed.
    Done,
    /// Each query ended without an answer.
    NoAnswer,
    /// The budget of a query was spent.
    Spent,
    /// Arithmetic past 128 bits.
    Overflow,
}

/// How the run of a query ended.
#[derive(Clone, Copy, Debug, PartialEq, Eq)]
pub enum QueryEnd {
    /// There is no further answer.
    Ended,
    /// As many answers as were asked for were printed.
    Stopped,
    /// The next cost would pass the budget.
    Spent,
    /// Arithmetic past 128 bits.
    Overflow,
}
