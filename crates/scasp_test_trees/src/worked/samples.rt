//! Small programs with their certificates, as the rules of the checker give them.
use crate::worked::written::Line::{Leaf, Loops, Neg, Pos, Rule, Seen, Split, Test, Void};
use crate::worked::written::Sample;
use crate::worked::written::Told::{Equal, HasNotShape, IsNot};
use crate::worked::written::Tried::ByTerms;
use crate::worked::written::Written::{A, B, C, F, V};
use scasp_test_samples::{P, P_OF_C, Q, Q_OF_C, R, R_OF_C, S, S_OF_C};

pub const NOTHING: Sample = Sample {
    text: "",
    terms: &[],
    given: &[],
    sample: &[],
    lines: &[],
    map: &[],
};

/// A fact.
pub const FACT: Sample = Sample {
    text: "p. ?- p.",
    lines: &[(0, Pos(P, &[], 1, &[]))],
    map: &[(P, 0, true)],
    ..NOTHING
};

/// A loop that goes through negation twice.
pub const THROUGH_NEGATION: Sample = Sample {
    text: "p :- not q, r. q :- not r. r :- p. ?- not p.",
    lines: &[
        (0, Neg(P, &[])),
        (1, Rule(1)),
        (2, Leaf(1)),
        (3, Pos(Q, &[], 2, &[])),
        (4, Neg(R, &[])),
        (5, Rule(3)),
        (6, Leaf(1)),
        (7, Loops(false, P, 1)),
    ],
    map: &[(P, 0, true), (Q, 0, false), (R, 0, true)],
    ..NOTHING
};

/// A default over a variable.
pub const DEFAULT: Sample = Sample {
    text: "p(X) :- not q(X). q(a). ?- p(X).",
    terms: &[V(0)],
    given: &[IsNot(0, A)],
    sample: &[B],
    lines: &[
        (0, Pos(P, &[V(0)], 1, &[V(0)])),
        (1, Neg(Q, &[V(0)])),
        (2, Rule(2)),
        (3, Void(ByTerms)),
    ],
    map: &[(P_OF_C, 1, true), (Q_OF_C, 0, true)],
    ..NOTHING
};

/// A name with an argument against a variable: the answer where X is no f.
pub const SHAPE_OR_VALUE: Sample = Sample {
    text: "q(f(a)). p(X) :- not q(X). ?- p(X).",
    terms: &[V(0)],
    given: &[HasNotShape(0)],
    sample: &[A],
    lines: &[
        (0, Pos(P, &[V(0)], 2, &[V(0)])),
        (1, Neg(Q, &[V(0)])),
        (2, Rule(1)),
        (3, Void(ByTerms)),
    ],
    map: &[(P_OF_C, 1, true), (Q_OF_C, 0, true)],
    ..NOTHING
};

/// All facts of a predicate.
pub const FORALL: Sample = Sample {
    text: "p :- q(X), not r(X). q(a). q(b). r(a). r(b). ?- not p.",
    lines: &[
        (0, Neg(P, &[])),
        (1, Rule(1)),
        (2, Split(IsNot(0, A))),
        (3, Split(IsNot(0, B))),
        (4, Leaf(1)),
        (5, Neg(Q, &[V(0)])),
        (6, Rule(2)),
        (7, Void(ByTerms)),
        (6, Rule(3)),
        (7, Void(ByTerms)),
        (4, Leaf(2)),
        (5, Pos(Q, &[B], 3, &[])),
        (5, Pos(R, &[B], 5, &[])),
        (3, Leaf(2)),
        (4, Pos(Q, &[A], 2, &[])),
        (4, Pos(R, &[A], 4, &[])),
    ],
    map: &[(P, 1, true), (Q_OF_C, 0, true), (R_OF_C, 0, true)],
    ..NOTHING
};

/// A universal variable below a name.
pub const CLOSED_ONLY: Sample = Sample {
    text: "p :- not r(X). r(X) :- s(f(X)). s(Y). ?- not p.",
    lines: &[
        (0, Neg(P, &[])),
        (1, Rule(1)),
        (2, Leaf(1)),
        (3, Pos(R, &[V(0)], 2, &[V(0)])),
        (4, Pos(S, &[F(0)], 3, &[F(0)])),
    ],
    map: &[(P, 2, true), (R_OF_C, 1, true), (S_OF_C, 0, true)],
    ..NOTHING
};

/// On one side of the split p and its negation are both shown.
pub const BOTH: Sample = Sample {
    text: "p :- not q. q :- not p. r :- p, X = c, q. ?- not r.",
    lines: &[
        (0, Neg(R, &[])),
        (1, Rule(3)),
        (2, Split(Equal(V(0), C))),
        (3, Leaf(3)),
        (4, Pos(P, &[], 1, &[])),
        (5, Neg(Q, &[])),
        (6, Rule(2)),
        (7, Leaf(1)),
        (8, Loops(true, P, 5)),
        (4, Test(Equal(C, C), ByTerms)),
        (4, Neg(Q, &[])),
        (5, Rule(2)),
        (6, Leaf(1)),
        (7, Seen(true, P, 5)),
        (3, Leaf(1)),
        (4, Neg(P, &[])),
        (5, Rule(1)),
        (6, Leaf(1)),
        (7, Pos(Q, &[], 2, &[])),
        (8, Loops(false, P, 16)),
    ],
    ..NOTHING
};
