//! A small program over numbers with its certificate, as the rules of the checker give it.
use crate::worked::samples::NOTHING;
use crate::worked::written::Line::{Check, Leaf, Pos, Split, Test};
use crate::worked::written::Told::{Compares, NoNumber, Number};
use crate::worked::written::Tried::{ByStep, ByTerms};
use crate::worked::written::Written::V;
use crate::worked::written::{Sample, Sum};
use scasp_num::Op;
use scasp_test_samples::Q;

/// -2*V0+3 < 0
pub const ABOVE: Sum = Sum(&[(0, -2)], 3, Op::Lt);

/// 2*V0-3 =< 0
pub const AT_MOST: Sum = Sum(&[(0, 2)], -3, Op::Le);

/// -2*V0+3 =< 0
pub const AT_LEAST: Sum = Sum(&[(0, -2)], 3, Op::Le);

/// A denial of linear constraints.
pub const DENIAL: Sample = Sample {
    text: "q. :- 2*X #> 3, 2*X #< 3. ?- q.",
    lines: &[
        (0, Pos(Q, &[], 1, &[])),
        (0, Check(2)),
        (1, Split(NoNumber(V(0)))),
        (2, Leaf(1)),
        (3, Test(NoNumber(V(0)), ByTerms)),
        (2, Split(Compares(AT_MOST))),
        (3, Leaf(2)),
        (4, Test(Number(V(0)), ByTerms)),
        (4, Test(Compares(AT_MOST), ByTerms)),
        (3, Leaf(3)),
        (4, Test(Number(V(0)), ByTerms)),
        (4, Test(Compares(ABOVE), ByTerms)),
        (4, Test(Compares(AT_LEAST), ByStep(1, 1, 1, 2))),
    ],
    map: &[(Q, 0, true)],
    ..NOTHING
};
