//! Rules over numbers that stand for atoms, and sets of numbers.
ghost use Rattle.std.specs.Prelude.{◌≡◌};
ghost use Rattle.scasp_worklist.specs.Numbered.{has};

use scasp_list::Sequence;
use std::marker::Model;

/// A list of numbers of atoms.
pub type NumberList = Sequence<u64>;

/// A rule without `not`, whose atoms are numbers.
#[derive(Debug, Drop)]
pub struct NumberedRule {
    pub head: u64,
    pub body: NumberList,
}

/// A list of such rules.
pub type NumberedRules = Sequence<NumberedRule>;

/// A finite set of numbers.
#[derive(Drop)]
pub struct NumberSet {
    marks: Vec<bool>,
}

impl Model for NumberSet {
    ghost use Rattle.std.specs.Prelude.{Bool, List};

    ghost Value = { List Bool };

    ghost view = { λ s. s.marks.items };
}

impl NumberSet {
    /// The set of the numbers that are marked.
    pub(crate) fn from_marks(marks: Vec<bool>) -> NumberSet
        ensures { result ≡ marks.items }
    {
        NumberSet { marks }
    }

    /// Whether the number is in the set.
    pub fn contains(&self, number: u64) -> bool
        ensures { result ≡ has self.now number }
    {
        is_marked(self.marks.as_slice(), number)
    }
}

/// Whether the number is marked; what lies behind the marks is not.
pub(crate) fn is_marked(marks: &[bool], number: u64) -> bool
    ensures { result ≡ has marks.now number }
{
    match marks.get(number as usize) {
        Some(mark) => *mark,
        None => false,
    }
}
