//! Ground programs.
use scasp_syntax::{Atom, Atoms, Lits, Sequence, Terms};

/// A finite list of terms, which clauses take for their variables. Each one is ground and stands once.
pub type Domain = Terms;

/// A ground rule, or a ground denial, which has no head. It has no tests.
#[derive(Debug, Drop)]
pub struct GroundClause {
    pub head: Option<Atom>,
    pub body: Lits,
}

/// A list of ground rules and denials.
pub type GroundProgram = Sequence<GroundClause>;

/// A list of ground atoms, which stands for the set of them.
pub type AtomList = Atoms;

/// A ground rule whose body has no `not`.
#[derive(Debug, Drop)]
pub struct DefiniteRule {
    pub head: Atom,
    pub body: Atoms,
}

/// A list of rules without `not`.
pub type DefiniteRules = Sequence<DefiniteRule>;
