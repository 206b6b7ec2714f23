//! Why a certificate is not accepted.

/// The rule that fails. At one line they are tested in this order.
#[derive(Clone, Copy, Debug, PartialEq, Eq)]
pub enum Reason {
    /// There is no such query, or its terms are not as many as its variables.
    WrongQuery,
    /// A variable is not in scope.
    WrongVariable,
    /// The line is of another kind than what is due there.
    WrongNode,
    /// The literal or the constraint is not the one that is due there.
    WrongLiteral,
    /// The line names no rule of its predicate.
    WrongRule,
    /// The terms are not as many as the rule's variables, or the head under them is not the atom.
    WrongInstance,
    /// There are more or fewer nodes below than items.
    WrongChildren,
    /// The rules below a negated literal are not those of its predicate, each once, in order.
    UncoveredCase,
    /// A leaf names no item; or the head is shown where no rule is checked.
    WrongItem,
    /// The constraint may not split a case.
    WrongSplit,
    /// No literal above is the one that is looped to.
    NoAncestor,
    /// No negated literal stands between a positive literal and the one that it loops to.
    LoopWithoutNegation,
    /// The literal is not shown at the line that is named, or in a case that is not around here.
    NotInScope,
    /// A hint has a step that may not be made, or another number of lists than it needs.
    HintStep,
    /// A number overflows where a hint is followed.
    HintOverflow,
    /// A hint shows nothing.
    HintNotReached,
    /// A positive and a negated literal of one predicate are not shown apart; or lines that are none are said to be.
    Clash,
    /// The sample is not ground, or does not meet what is given.
    Sample,
    /// There is no such clause to check, or it does not come in order.
    WrongCheck,
    /// The map has a predicate that the program has not, or has one twice.
    WrongMap,
}

/// A rule that fails, and the line at which it does, from 1; 0 is the certificate itself.
#[derive(Clone, Copy, Debug, PartialEq, Eq)]
pub struct Refusal {
    pub at: u64,
    pub reason: Reason,
}
