//! What the tables of the tests write.
use scasp_num::Op;
use scasp_test_samples::Name;

/// A variable, a constant, or f of a variable.
#[derive(Clone, Copy)]
pub enum Written {
    V(u64),
    A,
    B,
    C,
    F(u64),
}

/// The sum of variables with their factors, and a constant, compared with 0.
#[derive(Clone, Copy)]
pub struct Sum(pub &'static [(u64, i128)], pub i128, pub Op);

/// A constraint.
#[derive(Clone, Copy)]
pub enum Told {
    Equal(Written, Written),
    /// The variable is not the constant.
    IsNot(u64, Written),
    /// The variable is no f of one argument.
    HasNotShape(u64),
    Number(Written),
    NoNumber(Written),
    Compares(Sum),
}

/// A hint by terms, or by one step.
#[derive(Clone, Copy)]
pub enum Tried {
    ByTerms,
    /// The multiplier and the number of its first row, and those of its second one.
    ByStep(i128, u64, i128, u64),
}

/// A line of a block.
#[derive(Clone, Copy)]
pub enum Line {
    Pos(Name, &'static [Written], u64, &'static [Written]),
    Neg(Name, &'static [Written]),
    Loops(bool, Name, u64),
    Seen(bool, Name, u64),
    Test(Told, Tried),
    Rule(u64),
    Check(u64),
    Split(Told),
    Void(Tried),
    Leaf(u64),
}

/// The lines of a block, each with how deep it stands.
pub type Lines = &'static [(u64, Line)];

/// The text of a program with one query, and a certificate: what its variables stand for, what is given, the sample, the lines with
/// those of the checks behind them, and the map.
#[derive(Clone, Copy)]
pub struct Sample {
    pub text: &'static str,
    pub terms: &'static [Written],
    pub given: &'static [Told],
    pub sample: &'static [Written],
    pub lines: Lines,
    pub map: &'static [(Name, u64, bool)],
}
