//! Checks of clauses.
use scasp_syntax::Sequence;

/// A check of the clause of this number, counted from 1; `head` where the clause is a rule and not a denial.
#[derive(Clone, Copy, Debug, PartialEq, Eq)]
pub struct CheckItem {
    pub clause: u64,
    pub head: bool,
}

/// A list of checks.
pub type CheckItems = Sequence<CheckItem>;
