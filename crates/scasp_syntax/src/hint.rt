//! What shows that a list of constraints cannot be met.
use scasp_num::{StepLists, Steps};

/// A hint by which a list of constraints is shown contradictory.
#[derive(Debug, Drop)]
pub enum Hint {
    /// The terms alone contradict one another.
    Terms,
    /// Sums of the list's rows reach a false row.
    Rows(Steps),
    /// The disequation of this number is shown part by part.
    Same(u64, StepLists),
}
