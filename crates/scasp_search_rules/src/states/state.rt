//! States of the search.
use crate::states::covers::{CaseList, Covers};
use crate::states::lines::Lines;
use crate::states::tasks::Tasks;
use scasp_list::Sequence;
use scasp_syntax::{Cons, Lit};
use scasp_unify::Binding;

/// What a variable stands for.
#[derive(Clone, Copy, Debug, PartialEq, Eq)]
pub enum Kind {
    /// One value, which is still to be found.
    Existential,
    /// Every value that the case leaves.
    Universal,
    /// Neither yet: a variable of a rule whose head is being matched.
    Matched,
}

/// A variable that was made, and how many covers its value may depend on.
#[derive(Clone, Copy, Debug, PartialEq, Eq)]
pub struct Made {
    pub kind: Kind,
    pub depth: u64,
}

/// The variables, by number.
pub type Variables = Sequence<Made>;

/// Bindings in the order in which they were made, of which each may speak of variables that later ones bind.
pub type Bindings = Sequence<Binding>;

/// A literal that was gone into.
#[derive(Debug, Drop)]
pub struct Literal {
    pub number: u64,
    pub lit: Lit,
    /// The cases around it that are of no plain cover.
    pub cases: CaseList,
    pub is_done: bool,
    /// A positive loop leads out of it.
    pub loops: bool,
    /// It has a universal variable of a case that has ended.
    pub is_general: bool,
}

/// A list of literals, in the order of creation.
pub type Literals = Sequence<Literal>;

/// A state of the search.
#[derive(Debug, Drop)]
pub struct State {
    pub made: Variables,
    pub bound: Bindings,
    /// The given constraints: what is assumed of the existential variables.
    pub given: Cons,
    pub covers: Covers,
    /// How many cases have begun.
    pub cases: u64,
    pub literals: Literals,
    /// The lines of the innermost case so far.
    pub lines: Lines,
    pub work: Tasks,
}
