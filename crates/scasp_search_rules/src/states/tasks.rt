//! What is still to be done in a state.
use scasp_list::Sequence;
use scasp_name::NameId;
use scasp_num::Rat;
use scasp_syntax::{Atom, Con, FlatItem, Term, Terms};

/// Two terms.
#[derive(Debug, Drop)]
pub struct Pair {
    pub left: Term,
    pub right: Term,
}

/// A list of pairs of terms.
pub type Pairs = Sequence<Pair>;

/// What a disequation is for.
#[derive(Clone, Copy, Debug, PartialEq, Eq)]
pub enum Aim {
    /// A test, which fails where the terms are the same.
    Test,
    /// The head of a rule, whose variables are numbered from `first` on: apart, the rule is void; the same, its cases begin.
    Head { rule: u64, first: u64 },
}

/// What is still to be done.
#[derive(Debug, Drop)]
pub enum Task {
    /// The item is to be true.
    Show(FlatItem),
    /// The two terms are to be equal.
    Equate(Term, Term),
    /// The constraint is to be true.
    Assume(Con),
    /// Some pair is to be apart.
    Differ(Pairs, Aim),
    /// The variable is to be this variable or number, and then some other pair is to be apart.
    Become {
        x: u64,
        term: Term,
        rest: Pairs,
        aim: Aim,
    },
    /// The variable, a number, and this number are to be apart, or some other pair.
    Avoid {
        x: u64,
        value: Rat,
        rest: Pairs,
        aim: Aim,
    },
    /// The variable is to have this name, and then its arguments and these, or some other pair, are to be apart.
    Shape {
        x: u64,
        name: NameId,
        args: Terms,
        rest: Pairs,
        aim: Aim,
    },
    /// The rule is not to give the atom.
    Cover {
        atom: Atom,
        rule: u64,
    },
    /// The clause is to be met, and in each case its head may be called at the end.
    Check {
        clause: u64,
        checks_head: bool,
    },
    /// The cases of the clause begin; its variables are numbered from `first` on.
    Begin {
        clause: u64,
        first: u64,
        checks_head: bool,
    },
    /// A cover has no case.
    Void,
    /// The innermost literal is done.
    Leave,
    /// The case of the innermost cover is done.
    Close,
}

/// A list of tasks, the next one first.
pub type Tasks = Sequence<Task>;
