//! Atomic constraints.
use crate::term::Term;
use scasp_list::Sequence;
use scasp_name::NameId;
use scasp_num::Row;

/// An atomic constraint.
#[derive(Debug, Drop)]
pub enum Con {
    /// The two terms are equal.
    Eq(Term, Term),
    /// The two terms differ.
    Neq(Term, Term),
    /// The variable is not this name with so many arguments.
    NotShape(u64, NameId, u64),
    /// The term is a number.
    Num(Term),
    /// The term is no number.
    NotNum(Term),
    /// The linear comparison holds, where a variable that is no number counts as 0.
    Row(Row),
}

/// A list of constraints.
pub type Cons = Sequence<Con>;

/// A list of lists of constraints.
pub type ConLists = Sequence<Cons>;
