//! Calls whose expected values were computed with Python's whole numbers and `fractions`.
use crate::written::{Given, Summed, is_row, row_of};
use scasp_num::{Op, Row, Rows, Steps};
use scasp_rows::{
    LinErr, Point, RowLists, StepErr, Verdict, are_disequations, eliminate,
    is_free_of_disequations, sample, step,
};
use std::alloc::Global;
use std::test::Fail;

enum Want {
    Row(Given),
    Sign,
    Overflow,
}

/// Two rows with multipliers, and what the step gives.
struct Stepping {
    a: i128,
    p: Given,
    b: i128,
    q: Given,
    want: Want,
}

static STEPPINGS: [Stepping; 12] = [
    Stepping {
        a: 1,
        p: (&[(0, 1)], -3, Op::Lt),
        b: 1,
        q: (&[(0, -1)], 1, Op::Le),
        want: Want::Row((&[], -1, Op::Lt)),
    },
    Stepping {
        a: -1,
        p: (&[(0, 1)], -3, Op::Lt),
        b: 1,
        q: (&[(0, -1)], 1, Op::Le),
        want: Want::Sign,
    },
    Stepping {
        a: 1,
        p: (&[(0, 1)], -3, Op::Le),
        b: 1,
        q: (&[(0, -1)], 1, Op::Lt),
        want: Want::Row((&[], -1, Op::Lt)),
    },
    Stepping {
        a: 1,
        p: (&[(0, 1)], -3, Op::Le),
        b: 1,
        q: (&[(0, -1)], 3, Op::Le),
        want: Want::Row((&[], 0, Op::Le)),
    },
    Stepping {
        a: 2,
        p: (&[(0, 3), (2, -1)], 1, Op::Le),
        b: 3,
        q: (&[(0, -2), (1, 5)], -4, Op::Le),
        want: Want::Row((&[(1, 15), (2, -2)], -10, Op::Le)),
    },
    Stepping {
        a: -2,
        p: (&[(0, 1), (1, 1)], -1, Op::Eq),
        b: 1,
        q: (&[(0, 2), (1, 2)], 3, Op::Lt),
        want: Want::Row((&[], 1, Op::Lt)),
    },
    Stepping {
        a: -3,
        p: (&[(0, 2), (1, -4)], 1, Op::Eq),
        b: 2,
        q: (&[(0, 3), (1, 6)], 5, Op::Eq),
        want: Want::Row((&[(1, 24)], 7, Op::Eq)),
    },
    Stepping {
        a: 2,
        p: (&[(1, 1)], 0, Op::Eq),
        b: 1,
        q: (&[(1, -1), (3, 2)], 3, Op::Le),
        want: Want::Row((&[(1, 1), (3, 2)], 3, Op::Le)),
    },
    Stepping {
        a: 0,
        p: (&[(1, 1)], 0, Op::Eq),
        b: 1,
        q: (&[(1, -1), (3, 2)], 3, Op::Le),
        want: Want::Sign,
    },
    Stepping {
        a: 1,
        p: (&[(1, 1)], 0, Op::Ne),
        b: 1,
        q: (&[(1, -1), (3, 2)], 3, Op::Le),
        want: Want::Sign,
    },
    Stepping {
        a: 1,
        p: (&[(1, 1)], 0, Op::Lt),
        b: 0,
        q: (&[(1, -1), (3, 2)], 3, Op::Lt),
        want: Want::Sign,
    },
    Stepping {
        a: 1,
        p: (&[(1, 1)], 0, Op::Lt),
        b: -1,
        q: (&[(1, -1), (3, 2)], 3, Op::Le),
        want: Want::Sign,
    },
];

static FURTHER_STEPPINGS: [Stepping; 10] = [
    Stepping {
        a: 2,
        p: (&[(0, 1)], 0, Op::Lt),
        b: 1,
        q: (&[(1, 1)], 0, Op::Le),
        want: Want::Row((&[(0, 2), (1, 1)], 0, Op::Lt)),
    },
    Stepping {
        a: -2,
        p: (&[(0, 1)], 0, Op::Lt),
        b: 1,
        q: (&[(1, 1)], 0, Op::Le),
        want: Want::Sign,
    },
    Stepping {
        a: 1,
        p: (&[(0, 1)], 0, Op::Lt),
        b: 1,
        q: (&[(0, 1)], 0, Op::Le),
        want: Want::Row((&[(0, 1)], 0, Op::Lt)),
    },
    Stepping {
        a: 1,
        p: (&[(0, 1)], 0, Op::Lt),
        b: 1,
        q: (&[(0, -1)], 0, Op::Le),
        want: Want::Row((&[], 0, Op::Lt)),
    },
    Stepping {
        a: 170141183460469231731687303715884105727,
        p: (&[(0, 1)], 0, Op::Lt),
        b: 1,
        q: (&[(0, -1)], 0, Op::Le),
        want: Want::Row((&[(0, 1)], 0, Op::Lt)),
    },
    Stepping {
        a: i128::MIN,
        p: (&[(0, 1)], 0, Op::Eq),
        b: 1,
        q: (&[(0, -1)], 0, Op::Le),
        want: Want::Overflow,
    },
    Stepping {
        a: i128::MIN,
        p: (&[], 0, Op::Eq),
        b: 1,
        q: (&[(0, -1)], 7, Op::Le),
        want: Want::Row((&[(0, -1)], 7, Op::Le)),
    },
    Stepping {
        a: 2,
        p: (&[(0, 1)], 170141183460469231731687303715884105727, Op::Lt),
        b: 1,
        q: (&[(0, -1)], 0, Op::Le),
        want: Want::Overflow,
    },
    Stepping {
        a: 1,
        p: (&[(0, 1)], 170141183460469231731687303715884105727, Op::Lt),
        b: 1,
        q: (&[(0, -1)], 1, Op::Le),
        want: Want::Overflow,
    },
    Stepping {
        a: 1,
        p: (&[(0, 1)], 170141183460469231731687303715884105727, Op::Lt),
        b: 1,
        q: (&[(1, -1)], -1, Op::Le),
        want: Want::Row((
            &[(0, 1), (1, -1)],
            170141183460469231731687303715884105726,
            Op::Lt,
        )),
    },
];

enum Decided {
    Sat,
    Unsat(&'static [Summed]),
    Overflow,
}

/// Rows, and what their elimination says.
struct Deciding {
    rows: &'static [Given],
    want: Decided,
}

static DECIDINGS: [Deciding; 14] = [
    Deciding {
        rows: &[(&[(0, 2)], -3, Op::Lt), (&[(0, -2)], 3, Op::Lt)],
        want: Decided::Unsat(&[(1, 2, 1, 1)]),
    },
    Deciding {
        rows: &[(&[(0, 1)], -3, Op::Lt), (&[(0, -1)], 5, Op::Le)],
        want: Decided::Unsat(&[(1, 2, 1, 1)]),
    },
    Deciding {
        rows: &[(&[(0, -1)], 3, Op::Lt), (&[(0, 1)], -5, Op::Lt)],
        want: Decided::Sat,
    },
    Deciding {
        rows: &[
            (
                &[(0, 85070591730234615865843651857942052864), (1, 3)],
                -1,
                Op::Eq,
            ),
            (&[(0, 5), (1, -1)], -2, Op::Eq),
        ],
        want: Decided::Overflow,
    },
    Deciding {
        rows: &[
            (&[(0, 4), (1, 3)], -1, Op::Eq),
            (&[(0, 5), (1, -1)], -2, Op::Eq),
        ],
        want: Decided::Sat,
    },
    Deciding {
        rows: &[(&[(0, 1)], -3, Op::Le), (&[(0, -1)], 3, Op::Le)],
        want: Decided::Sat,
    },
    Deciding {
        rows: &[(&[(0, 1)], -3, Op::Le), (&[(0, -1)], 3, Op::Lt)],
        want: Decided::Unsat(&[(1, 2, 1, 1)]),
    },
    Deciding {
        rows: &[
            (&[(0, 1), (1, -1)], 0, Op::Eq),
            (&[(0, 1)], -3, Op::Le),
            (&[(1, 1)], -3, Op::Le),
            (&[(1, -1)], 4, Op::Le),
        ],
        want: Decided::Unsat(&[(1, 2, -1, 1), (1, 4, 1, 3)]),
    },
    Deciding {
        rows: &[
            (&[(0, 1)], -3, Op::Le),
            (&[(0, 1)], -3, Op::Le),
            (&[(0, -1), (1, 1)], 0, Op::Le),
            (&[(1, -1)], 4, Op::Lt),
        ],
        want: Decided::Unsat(&[(1, 3, 1, 1), (1, 4, 1, 5)]),
    },
    Deciding {
        rows: &[
            (&[], -1, Op::Lt),
            (&[], 0, Op::Eq),
            (&[], 0, Op::Le),
            (&[(2, 1)], 0, Op::Lt),
        ],
        want: Decided::Sat,
    },
    Deciding {
        rows: &[
            (&[], -1, Op::Lt),
            (&[], 0, Op::Lt),
            (
                &[(0, 85070591730234615865843651857942052864), (1, 1)],
                0,
                Op::Eq,
            ),
            (&[(0, 5), (1, -1)], 0, Op::Eq),
        ],
        want: Decided::Unsat(&[]),
    },
    Deciding {
        rows: &[],
        want: Decided::Sat,
    },
    Deciding {
        rows: &[
            (&[(0, 1), (1, 1)], 0, Op::Eq),
            (&[(0, 1), (1, 1)], 1, Op::Eq),
            (
                &[(0, 170141183460469231731687303715884105727), (1, -1)],
                0,
                Op::Le,
            ),
            (&[(0, 170141183460469231731687303715884105727)], 5, Op::Le),
        ],
        want: Decided::Unsat(&[(1, 2, -1, 1)]),
    },
    Deciding {
        rows: &[
            (&[(0, 3), (1, 1)], 0, Op::Eq),
            (
                &[(0, 170141183460469231731687303715884105726), (1, -1)],
                0,
                Op::Le,
            ),
            (&[(0, 3), (1, 1)], 1, Op::Eq),
        ],
        want: Decided::Unsat(&[
            (1, 2, -56713727820156410577229101238628035242, 1),
            (1, 3, -1, 1),
        ]),
    },
];

static FURTHER_DECIDINGS: [Deciding; 10] = [
    Deciding {
        rows: &[
            (&[(0, 2), (1, -3)], -1, Op::Eq),
            (&[(0, 4), (1, -1)], 0, Op::Lt),
            (&[(0, -6), (1, -1)], 7, Op::Lt),
            (&[(1, 1)], -1, Op::Lt),
        ],
        want: Decided::Unsat(&[(1, 2, -2, 1), (1, 3, 3, 1), (1, 6, 1, 5)]),
    },
    Deciding {
        rows: &[
            (&[(0, -3), (1, -2), (2, -3)], 4, Op::Lt),
            (&[(0, 4), (1, 1), (2, 4)], -4, Op::Lt),
            (&[(0, 1), (1, -3), (2, 4)], -4, Op::Lt),
        ],
        want: Decided::Sat,
    },
    Deciding {
        rows: &[
            (&[(1, 1)], -4, Op::Eq),
            (&[(0, 1), (1, -1)], -1, Op::Eq),
            (&[(0, -2), (1, 1)], 3, Op::Lt),
            (&[(0, 3), (1, 6)], 1, Op::Le),
            (&[(0, -1), (1, 1)], -3, Op::Lt),
        ],
        want: Decided::Unsat(&[
            (1, 3, 2, 2),
            (1, 4, -3, 2),
            (1, 5, 1, 2),
            (1, 6, 1, 1),
            (1, 7, -9, 1),
        ]),
    },
    Deciding {
        rows: &[
            (&[(0, 3), (1, 2), (2, -2)], -3, Op::Lt),
            (&[(0, 3), (1, 6), (2, -2)], 4, Op::Lt),
            (&[(2, 1)], 1, Op::Lt),
            (&[(1, 2)], -3, Op::Eq),
            (&[(0, 2), (1, 6), (2, 4)], 1, Op::Eq),
        ],
        want: Decided::Unsat(&[
            (2, 1, -3, 5),
            (2, 2, -3, 5),
            (1, 6, 7, 4),
            (1, 7, 3, 4),
            (1, 8, 8, 3),
            (1, 9, 4, 3),
        ]),
    },
    Deciding {
        rows: &[
            (&[(0, -2), (1, 1)], -2, Op::Lt),
            (&[(0, 3), (1, 3), (2, 1)], -1, Op::Le),
            (&[(1, 2)], 1, Op::Lt),
            (&[(0, -1), (1, 1), (2, -1)], 0, Op::Le),
        ],
        want: Decided::Sat,
    },
    Deciding {
        rows: &[
            (&[(0, 3), (1, 3)], -2, Op::Lt),
            (&[(1, -1)], 1, Op::Lt),
            (&[(0, 2), (1, 3)], 1, Op::Eq),
        ],
        want: Decided::Sat,
    },
    Deciding {
        rows: &[
            (&[(1, -2)], 1, Op::Lt),
            (&[(0, -3), (1, -2)], 1, Op::Lt),
            (&[(0, 1), (1, -1)], 0, Op::Le),
        ],
        want: Decided::Sat,
    },
    Deciding {
        rows: &[
            (&[(0, 1), (2, 1)], 0, Op::Eq),
            (&[(0, 3), (1, 6)], -2, Op::Lt),
            (&[(0, 1), (1, -1)], 0, Op::Eq),
            (&[(0, 2), (1, -1), (2, 1)], 4, Op::Lt),
        ],
        want: Decided::Unsat(&[
            (1, 2, -3, 1),
            (1, 3, -1, 1),
            (1, 4, -2, 1),
            (1, 5, -6, 6),
            (1, 7, 1, 6),
        ]),
    },
    Deciding {
        rows: &[
            (&[(0, 1)], -1, Op::Lt),
            (&[(0, 1), (1, -1)], 1, Op::Le),
            (&[(0, 3), (1, 3)], 1, Op::Eq),
            (&[(0, 1), (1, 3), (2, -3)], 3, Op::Le),
            (&[(1, -2)], -1, Op::Le),
        ],
        want: Decided::Sat,
    },
    Deciding {
        rows: &[
            (&[(0, -2), (1, -1)], 2, Op::Lt),
            (&[(1, 2)], -1, Op::Le),
            (&[(0, 3), (1, 4)], -2, Op::Eq),
        ],
        want: Decided::Sat,
    },
];

enum Sampled {
    None,
    Point(&'static [(u64, (i128, i128))]),
    Overflow,
}

/// Rows and the parts of disequations, and the point that is found.
struct Sampling {
    rows: &'static [Given],
    differ: &'static [&'static [Given]],
    want: Sampled,
}

static SAMPLINGS: [Sampling; 16] = [
    Sampling {
        rows: &[(&[(0, -1)], 3, Op::Lt), (&[(0, 1)], -5, Op::Lt)],
        differ: &[],
        want: Sampled::Point(&[(0, (4, 1))]),
    },
    Sampling {
        rows: &[(&[(0, -1)], 3, Op::Lt), (&[(0, 1)], -5, Op::Lt)],
        differ: &[&[(&[(0, 1)], -4, Op::Ne)]],
        want: Sampled::Point(&[(0, (7, 2))]),
    },
    Sampling {
        rows: &[
            (
                &[(0, 85070591730234615865843651857942052864), (1, 3)],
                -1,
                Op::Eq,
            ),
            (&[(0, 5), (1, -1)], -2, Op::Eq),
        ],
        differ: &[],
        want: Sampled::Overflow,
    },
    Sampling {
        rows: &[
            (&[(0, 4), (1, 3)], -1, Op::Eq),
            (&[(0, 5), (1, -1)], -2, Op::Eq),
        ],
        differ: &[],
        want: Sampled::Point(&[(0, (7, 19)), (1, (-3, 19))]),
    },
    Sampling {
        rows: &[(&[(0, 1)], -3, Op::Le), (&[(0, -1)], 3, Op::Le)],
        differ: &[&[(&[(0, 1)], -3, Op::Ne)]],
        want: Sampled::None,
    },
    Sampling {
        rows: &[(&[(0, 1)], -3, Op::Le), (&[(0, -1)], 3, Op::Le)],
        differ: &[&[(&[(0, 1)], -3, Op::Ne), (&[(1, 1)], 0, Op::Ne)]],
        want: Sampled::Point(&[(0, (3, 1)), (1, (-1, 1))]),
    },
    Sampling {
        rows: &[(&[(0, 1)], -3, Op::Le), (&[(0, -1)], 3, Op::Le)],
        differ: &[],
        want: Sampled::Point(&[(0, (3, 1))]),
    },
    Sampling {
        rows: &[(&[(0, -1)], 0, Op::Le), (&[(0, 1)], -1, Op::Le)],
        differ: &[&[(&[(0, 1)], 0, Op::Ne)], &[(&[(0, 1)], -1, Op::Ne)]],
        want: Sampled::Point(&[(0, (1, 2))]),
    },
    Sampling {
        rows: &[],
        differ: &[
            &[(&[(3, 1)], -3, Op::Ne)],
            &[(&[(3, 1), (5, 2)], 1, Op::Ne)],
        ],
        want: Sampled::Point(&[(3, (-2, 1)), (5, (0, 1))]),
    },
    Sampling {
        rows: &[(&[(0, 1)], -3, Op::Lt)],
        differ: &[],
        want: Sampled::Point(&[(0, (2, 1))]),
    },
    Sampling {
        rows: &[(&[(0, -2)], 3, Op::Lt)],
        differ: &[],
        want: Sampled::Point(&[(0, (5, 2))]),
    },
    Sampling {
        rows: &[(&[(0, 1), (1, -1)], 0, Op::Eq)],
        differ: &[&[(&[(0, 1), (1, -1)], 0, Op::Ne)]],
        want: Sampled::None,
    },
    Sampling {
        rows: &[
            (&[(0, 1), (1, -1)], 0, Op::Le),
            (&[(1, 1), (2, -1)], 0, Op::Le),
            (&[(0, -1), (2, 1)], 0, Op::Le),
        ],
        differ: &[&[(&[(0, 1), (2, -1)], 0, Op::Ne), (&[(1, 1)], -2, Op::Ne)]],
        want: Sampled::Point(&[(0, (1, 1)), (1, (1, 1)), (2, (1, 1))]),
    },
    Sampling {
        rows: &[(&[], 1, Op::Lt)],
        differ: &[&[(&[(0, 1)], 0, Op::Ne)]],
        want: Sampled::None,
    },
    Sampling {
        rows: &[(&[], 0, Op::Eq)],
        differ: &[&[(&[], 0, Op::Ne)]],
        want: Sampled::None,
    },
    Sampling {
        rows: &[],
        differ: &[&[]],
        want: Sampled::None,
    },
];

static FURTHER_SAMPLINGS: [Sampling; 10] = [
    Sampling {
        rows: &[],
        differ: &[&[(&[], 1, Op::Ne)]],
        want: Sampled::Point(&[]),
    },
    Sampling {
        rows: &[
            (
                &[(0, 170141183460469231731687303715884105727), (1, -1)],
                0,
                Op::Eq,
            ),
            (
                &[(1, 170141183460469231731687303715884105727), (2, -1)],
                0,
                Op::Eq,
            ),
            (&[(2, 1)], -1, Op::Eq),
        ],
        differ: &[],
        want: Sampled::Overflow,
    },
    Sampling {
        rows: &[
            (&[(0, 1)], -170141183460469231731687303715884105727, Op::Le),
            (&[(0, -1)], 170141183460469231731687303715884105726, Op::Le),
            (&[(0, 2), (1, -2)], 1, Op::Eq),
        ],
        differ: &[],
        want: Sampled::Overflow,
    },
    Sampling {
        rows: &[(&[(0, -1)], 170141183460469231731687303715884105727, Op::Le)],
        differ: &[],
        want: Sampled::Overflow,
    },
    Sampling {
        rows: &[
            (&[(1, 1), (2, 2)], -1, Op::Lt),
            (&[(1, 2), (2, -3)], 3, Op::Le),
            (&[(0, 2), (2, -3)], 2, Op::Le),
            (&[(0, 2), (1, 2), (2, 2)], -3, Op::Eq),
        ],
        differ: &[&[(&[(1, 2), (2, -1)], 2, Op::Ne)]],
        want: Sampled::Point(&[(0, (19, 4)), (1, (-29, 4)), (2, (4, 1))]),
    },
    Sampling {
        rows: &[
            (&[(0, -3), (1, 1)], 0, Op::Le),
            (&[], -1, Op::Le),
            (&[(0, 2), (1, 3)], 3, Op::Eq),
            (&[(0, -1), (1, -3)], -4, Op::Lt),
        ],
        differ: &[&[(&[(0, 2), (1, -1)], 0, Op::Ne)]],
        want: Sampled::Point(&[(0, (4, 11)), (1, (-41, 33))]),
    },
    Sampling {
        rows: &[
            (&[(0, -3), (2, -3)], -2, Op::Lt),
            (&[(0, -3), (1, 1), (2, 2)], -1, Op::Le),
        ],
        differ: &[&[(&[(0, 1), (1, 1)], -1, Op::Ne)]],
        want: Sampled::Point(&[(0, (1, 3)), (1, (0, 1)), (2, (0, 1))]),
    },
    Sampling {
        rows: &[
            (&[], -1, Op::Le),
            (&[(0, -3), (1, -1)], -1, Op::Le),
            (&[(0, 1), (1, 1)], -1, Op::Eq),
            (&[(0, 1), (1, 2)], -3, Op::Le),
        ],
        differ: &[&[(&[(1, 2)], 1, Op::Ne)]],
        want: Sampled::Point(&[(0, (5, 2)), (1, (-3, 2))]),
    },
    Sampling {
        rows: &[(&[(0, 1), (1, -2)], 2, Op::Eq), (&[(0, 1)], 4, Op::Lt)],
        differ: &[&[(&[(0, 1)], -2, Op::Ne)]],
        want: Sampled::Point(&[(0, (-6, 1)), (1, (-2, 1))]),
    },
    Sampling {
        rows: &[
            (&[(1, 1), (2, 2)], -3, Op::Eq),
            (&[(0, -3), (1, -2)], -3, Op::Le),
            (&[(0, 3), (2, -3)], 1, Op::Le),
        ],
        differ: &[&[(&[(0, 1), (2, -1)], 0, Op::Ne)]],
        want: Sampled::Point(&[(0, (13, 2)), (1, (-11, 1)), (2, (7, 1))]),
    },
];

fn row(alloc: Global, given: &Given) -> Result<Row, Fail> {
    let (terms, constant, op) = given;
    row_of(alloc, terms, *constant, *op)
}

fn is_given(row: &Row, want: &Given) -> bool {
    let (terms, constant, op) = want;
    is_row(row, terms, *constant, *op)
}

fn is_wanted(answer: &Result<Row, StepErr>, want: &Want) -> bool {
    match answer {
        Ok(row) => matches!(want, Want::Row(given) if is_given(row, given)),
        Err(StepErr::Sign) => matches!(want, Want::Sign),
        Err(StepErr::Overflow) => matches!(want, Want::Overflow),
        Err(StepErr::Memory) => false,
    }
}

/// Whether each step gives the row that its case says.
fn are_summed(alloc: Global, cases: &[Stepping]) -> Result<bool, Fail> {
    for case in cases {
        let p = row(alloc, &case.p)?;
        let q = row(alloc, &case.q)?;
        if !is_wanted(&step(alloc, case.a, &p, case.b, &q), &case.want) {
            return Ok(false);
        }
    }
    Ok(true)
}

#[test]
fn sums_of_two_rows(rt: HostRuntime) -> Result<(), Fail> {
    assert!(rt; are_summed(rt.alloc(), STEPPINGS.as_slice())?);
    assert!(rt; are_summed(rt.alloc(), FURTHER_STEPPINGS.as_slice())?);
    Ok(())
}

fn rows(alloc: Global, given: &[Given]) -> Result<Rows, Fail> {
    let mut rows = Rows::new(alloc);
    for g in given {
        rows.push(row(alloc, g)?)?;
    }
    Ok(rows)
}

fn are_steps(steps: &Steps, want: &[Summed]) -> bool {
    let steps = steps.as_slice();
    if steps.len() != want.len() {
        return false;
    }
    for (s, (a, p, b, q)) in steps.iter().zip(want) {
        if s.a != *a || s.p != *p || s.b != *b || s.q != *q {
            return false;
        }
    }
    true
}

fn is_decided(answer: &Result<Verdict, LinErr>, want: &Decided) -> bool {
    match answer {
        Ok(Verdict::Sat) => matches!(want, Decided::Sat),
        Ok(Verdict::Unsat(steps)) => {
            matches!(want, Decided::Unsat(given) if are_steps(steps, given))
        }
        Err(LinErr::Overflow) => matches!(want, Decided::Overflow),
        Err(LinErr::Memory) => false,
    }
}

/// Whether each list, which is free of disequations, is decided as its case says.
fn are_decided(alloc: Global, cases: &[Deciding]) -> Result<bool, Fail> {
    for case in cases {
        let rows = rows(alloc, case.rows)?;
        if !is_free_of_disequations(&rows) || !is_decided(&eliminate(alloc, &rows), &case.want) {
            return Ok(false);
        }
    }
    Ok(true)
}

#[test]
fn eliminations(rt: HostRuntime) -> Result<(), Fail> {
    assert!(rt; are_decided(rt.alloc(), DECIDINGS.as_slice())?);
    assert!(rt; are_decided(rt.alloc(), FURTHER_DECIDINGS.as_slice())?);
    Ok(())
}

/// `count` upper rows and `count` lower rows of one variable, which make `count` times `count` rows without it.
fn many(alloc: Global, count: u8) -> Result<Rows, Fail> {
    let mut rows = Rows::new(alloc);
    for i in 1..=count {
        let upper = [(0, 1), (u64::from(i), -1)];
        let lower = [(0, -1), (u64::from(i) + 1000, 1)];
        rows.push(row_of(alloc, &upper, 0, Op::Le)?)?;
        rows.push(row_of(alloc, &lower, 1, Op::Le)?)?;
    }
    Ok(rows)
}

#[test]
fn many_rows(rt: HostRuntime) -> Result<(), Fail> {
    for (count, want) in &[(64, Decided::Sat), (65, Decided::Overflow)] {
        let rows = many(rt.alloc(), *count)?;
        assert!(rt; is_free_of_disequations(&rows));
        let answer = eliminate(rt.alloc(), &rows);
        assert!(rt; is_decided(&answer, want));
    }
    Ok(())
}

fn lists(alloc: Global, given: &[&[Given]]) -> Result<RowLists, Fail> {
    let mut lists = RowLists::new(alloc);
    for parts in given {
        lists.push(rows(alloc, parts)?)?;
    }
    Ok(lists)
}

fn is_point(point: &Point, want: &[(u64, (i128, i128))]) -> bool {
    let point = point.as_slice();
    if point.len() != want.len() {
        return false;
    }
    for (p, (x, (num, den))) in point.iter().zip(want) {
        if p.x != *x || p.value.num() != *num || p.value.den() != *den {
            return false;
        }
    }
    true
}

fn is_sampled(answer: &Result<Option<Point>, LinErr>, want: &Sampled) -> bool {
    match answer {
        Ok(None) => matches!(want, Sampled::None),
        Ok(Some(point)) => matches!(want, Sampled::Point(given) if is_point(point, given)),
        Err(LinErr::Overflow) => matches!(want, Sampled::Overflow),
        Err(LinErr::Memory) => false,
    }
}

/// Whether each list of rows, with its disequations apart, has the point that its case says.
fn are_sampled(alloc: Global, cases: &[Sampling]) -> Result<bool, Fail> {
    for case in cases {
        let rows = rows(alloc, case.rows)?;
        let differ = lists(alloc, case.differ)?;
        let is_apart = is_free_of_disequations(&rows) && are_disequations(&differ);
        if !is_apart || !is_sampled(&sample(alloc, &rows, &differ), &case.want) {
            return Ok(false);
        }
    }
    Ok(true)
}

#[test]
fn points(rt: HostRuntime) -> Result<(), Fail> {
    assert!(rt; are_sampled(rt.alloc(), SAMPLINGS.as_slice())?);
    assert!(rt; are_sampled(rt.alloc(), FURTHER_SAMPLINGS.as_slice())?);
    Ok(())
}
