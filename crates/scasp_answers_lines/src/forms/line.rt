//! Lines as values.
use scasp_cert::Clash;
use scasp_syntax::{Atom, Con, Hint, Lit, PredMap, Terms};

/// How the answers to a query end.
#[derive(Clone, Copy, Debug, PartialEq, Eq)]
pub enum End {
    Ended,
    Stopped,
    Spent,
    Overflow,
}

/// A line behind its indent. Its numbers may be too large.
#[derive(Drop)]
pub enum Line {
    /// The version of the text.
    Header(u128),
    /// How the answers to this query end.
    Ending(End, u128),
    /// A rejected answer: query and answer, the line at fault, the reason in words.
    Rejected(u128, u128, u128, &'static str),
    /// Query, answer, and what the query's variables stand for.
    Answer(u128, u128, Terms),
    Given(Con),
    Sample(Terms),
    Tree,
    /// The number of the clause.
    Check(u128),
    Clash(Clash),
    Map(PredMap),
    End,
    /// The literal, the number of its rule, the terms for the rule's variables.
    Pos(Atom, u128, Terms),
    Neg(Atom),
    /// The literal, and the line that it repeats.
    Loop(Lit, u128),
    Seen(Lit, u128),
    Test(Con, Hint),
    /// The number of the rule.
    Rule(u128),
    Split(Con),
    Void(Hint),
    /// The number of the item.
    Leaf(u128),
    Head,
}
