//! Clauses and queries.
use crate::atom::{Atom, Lit, Pred};
use crate::con::Con;
use crate::lists::VarList;
use crate::term::Term;
use scasp_list::Sequence;
use scasp_name::NameId;
use scasp_num::Row;

/// A linear constraint of a body, with the variables that were written in it.
#[derive(Debug, Drop)]
pub struct Lin {
    pub vars: VarList,
    pub row: Row,
}

/// An item of a body.
#[derive(Debug, Drop)]
pub enum Item {
    /// A literal.
    Call(Lit),
    /// The two terms are equal.
    Equal(Term, Term),
    /// The two terms differ.
    Differ(Term, Term),
    /// A linear constraint.
    Linear(Lin),
}

/// A list of items.
pub type Items = Sequence<Item>;

/// A rule, or a denial, which has no head. Its variables are numbered below `vars`.
#[derive(Debug, Drop)]
pub struct Clause {
    pub head: Option<Atom>,
    pub body: Items,
    pub vars: u64,
}

impl Clause {
    ghost use Rattle.std.specs.Prelude.{◌≡◌};
    ghost use Rattle.scasp_syntax.specs.Programs.{is_rule_of};

    /// Whether the clause is a rule of the predicate.
    pub fn is_rule_of(&self, pred: Pred) -> bool
        ensures { result ≡ is_rule_of pred self.now }
    {
        match &self.head {
            Some(head) => pred == head.pred(),
            None => false,
        }
    }
}

/// A list of clauses.
pub type Clauses = Sequence<Clause>;

/// The names of the variables of a query; none for `_`.
pub type VarNames = Sequence<Option<NameId>>;

/// A query. Its variables are numbered below the length of `names`.
#[derive(Debug, Drop)]
pub struct Query {
    pub body: Items,
    pub names: VarNames,
}

/// A list of queries.
pub type Queries = Sequence<Query>;

/// An item of a flat body: a literal, or one atomic constraint.
#[derive(Debug, Drop)]
pub enum FlatItem {
    Call(Lit),
    Test(Con),
}

/// A flat body.
pub type FlatItems = Sequence<FlatItem>;
