//! Steps of an elimination: sums of two numbered rows.
use scasp_list::Sequence;

/// One sum of two numbered rows: `a` times row `p` plus `b` times row `q`.
#[derive(Clone, Copy, Debug, PartialEq, Eq)]
pub struct Step {
    pub a: i128,
    pub p: u64,
    pub b: i128,
    pub q: u64,
}

/// A list of steps.
pub type Steps = Sequence<Step>;

/// A list of lists of steps.
pub type StepLists = Sequence<Steps>;
