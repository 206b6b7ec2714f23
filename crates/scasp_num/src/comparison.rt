//! How a sum compares with 0.
ghost use Rattle.std.specs.Prelude.{◌≡◌, ◌↔◌, IsTrue};
ghost use Rattle.scasp_num.specs.Linear.{Compares, compares, is_equation, is_symmetric, opposite};

use crate::linear::Op;

impl Op {
    /// Whether an integer compares so with 0.
    pub fn compares(self, z: i128) -> bool
        ensures value { result ≡ compares self z }
        ensures exact { IsTrue result ↔ Compares self z }
    {
        match self {
            Op::Eq => z == 0,
            Op::Lt => z < 0,
            Op::Le => z <= 0,
            Op::Ne => z != 0,
        }
    }

    /// Whether it is `=`.
    pub fn is_equation(self) -> bool
        ensures { result ≡ is_equation self }
    {
        match self {
            Op::Eq => true,
            Op::Lt | Op::Le | Op::Ne => false,
        }
    }

    /// Whether it is `=\=`.
    pub fn is_disequation(self) -> bool
        ensures { IsTrue result ↔ (self ≡ Op.Ne) }
    {
        match self {
            Op::Ne => true,
            Op::Eq | Op::Lt | Op::Le => false,
        }
    }

    /// Whether a sum compares in the same way as its negation.
    pub fn is_symmetric(self) -> bool
        ensures { result ≡ is_symmetric self }
    {
        match self {
            Op::Eq | Op::Ne => true,
            Op::Lt | Op::Le => false,
        }
    }

    /// How a sum compares where it does not compare by `self`, after its sign is turned for `<` and `=<`.
    pub(crate) fn opposite(self) -> Op
        ensures { result ≡ opposite self }
    {
        match self {
            Op::Eq => Op::Ne,
            Op::Lt => Op::Le,
            Op::Le => Op::Lt,
            Op::Ne => Op::Eq,
        }
    }
}
