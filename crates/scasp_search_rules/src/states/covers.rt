//! Covers of clauses, with what waits in them.
use crate::states::lines::Lines;
use scasp_list::Sequence;
use scasp_syntax::{Cons, VarList};
use scasp_unify::Binding;

/// Numbers of cases, in the order in which they began.
pub type CaseList = Sequence<u64>;

/// The other side of a split, which waits to become the case of its cover.
#[derive(Debug, Drop)]
pub struct Remainder {
    /// What holds of the universal variables there.
    pub region: Cons,
    pub universals: VarList,
    /// The universal variables that were replaced at the split.
    pub replaced: VarList,
    /// The universal variable that the other side replaces.
    pub equation: Option<Binding>,
}

/// A list of remainders, the last first.
pub type Remainders = Sequence<Remainder>;

/// An open cover of a clause: each of its cases is to make an item false.
#[derive(Debug, Drop)]
pub struct Cover {
    pub clause: u64,
    /// The first variable of the clause.
    pub first: u64,
    /// The head may be called where all items are true.
    pub checks_head: bool,
    /// The clause has no variable, its head no argument, and nothing was split.
    pub plain: bool,
    /// How many covers are open down to this one.
    pub depth: u64,
    /// The number of the present case.
    pub case: u64,
    pub universals: VarList,
    /// What holds of the universal variables in the present case.
    pub region: Cons,
    pub waiting: Remainders,
    /// The lines before the present case, back to that of the cover around this one.
    pub before: Lines,
}

/// A list of covers, the innermost first.
pub type Covers = Sequence<Cover>;
