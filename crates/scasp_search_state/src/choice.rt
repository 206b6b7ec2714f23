//! What is left of the successors of a state, and clauses whose cases have begun.
use scasp_search_rules::Tasks;
use scasp_syntax::Lit;

/// What is left of the successors of a state that waits.
#[derive(Drop)]
pub enum Choice {
    /// The rules of the literal behind the rule of this number.
    ByRules { lit: Lit, behind: u64 },
    /// The leaves of the innermost cover from this one on.
    Cases(u64),
    /// These tasks first.
    Other(Tasks),
}

/// A clause whose cases begin: its number, its first variable, and whether its head may be called at the end.
#[derive(Clone, Copy)]
pub struct Begun {
    pub clause: u64,
    pub first: u64,
    pub checks_head: bool,
}
