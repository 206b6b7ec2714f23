//! Lines of a tree in the making.
use scasp_list::Sequence;
use scasp_syntax::{Atom, Con, Lit, Terms, VarList};

/// A line of the tree in the making, before it has its number. Literals are named by their numbers in order of creation. A
/// line says how many children it has, so a list of lines is a tree.
#[derive(Debug, Drop)]
pub enum Line {
    /// A positive literal by a rule: the terms for the rule's variables, and how many lines are its children.
    Pos {
        atom: Atom,
        rule: u64,
        terms: Terms,
        children: u64,
    },
    /// A negated literal, and how many rules stand below it.
    Neg {
        atom: Atom,
        rules: u64,
    },
    /// The literal repeats one that it stands below.
    Loop {
        lit: Lit,
        literal: u64,
    },
    /// The literal repeats one that is done.
    Seen {
        lit: Lit,
        literal: u64,
    },
    /// A constraint that holds.
    Test(Con),
    /// A rule under a negated literal with this atom, whose variables are numbered from `first` on.
    Rule {
        atom: Atom,
        rule: u64,
        first: u64,
    },
    /// A clause that is checked.
    Check {
        clause: u64,
        first: u64,
    },
    /// A case parted by a constraint, as it stood then, with the new variables for the parts of a shape.
    Split {
        constraint: Con,
        parts: VarList,
    },
    /// A case that cannot be.
    Void,
    /// The item of this number, from 1, is false in the case, and those before it are true.
    Leaf(u64),
    /// All items of the case are true, and the head, so that there are so many children.
    Head(u64),
}

/// A list of lines.
pub type Lines = Sequence<Line>;
