//! Rows whose expected values were computed with Python's `fractions`.
use crate::written::is_row;
use scasp_num::rational::gcd;
use scasp_num::{Op, Overflow, Rat, RatPair, RatPairs, Row, RowErr, Rows, Step, StepLists, Steps};
use std::alloc::Global;
use std::cmp::Ordering;
use std::test::Fail;

type Fraction = (i128, i128);

/// Two fractions, and what each operation gives.
struct Case {
    left: Fraction,
    right: Fraction,
    sum: Option<Fraction>,
    difference: Option<Fraction>,
    product: Option<Fraction>,
    quotient: Option<Fraction>,
    order: Ordering,
}

static CASES: [Case; 12] = [
    Case {
        left: (1, 2),
        right: (1, 3),
        sum: Some((5, 6)),
        difference: Some((1, 6)),
        product: Some((1, 6)),
        quotient: Some((3, 2)),
        order: Ordering::Greater,
    },
    Case {
        left: (3, 4),
        right: (-1, 4),
        sum: Some((1, 2)),
        difference: Some((1, 1)),
        product: Some((-3, 16)),
        quotient: Some((-3, 1)),
        order: Ordering::Greater,
    },
    Case {
        left: (170141183460469231731687303715884105727, 1),
        right: (1, 1),
        sum: None,
        difference: Some((170141183460469231731687303715884105726, 1)),
        product: Some((170141183460469231731687303715884105727, 1)),
        quotient: Some((170141183460469231731687303715884105727, 1)),
        order: Ordering::Greater,
    },
    Case {
        left: (-170141183460469231731687303715884105727, 1),
        right: (-1, 1),
        sum: None,
        difference: Some((-170141183460469231731687303715884105726, 1)),
        product: Some((170141183460469231731687303715884105727, 1)),
        quotient: Some((170141183460469231731687303715884105727, 1)),
        order: Ordering::Less,
    },
    Case {
        left: (170141183460469231731687303715884105727, 1),
        right: (-1, 1),
        sum: Some((170141183460469231731687303715884105726, 1)),
        difference: None,
        product: Some((-170141183460469231731687303715884105727, 1)),
        quotient: Some((-170141183460469231731687303715884105727, 1)),
        order: Ordering::Greater,
    },
    Case {
        left: (170141183460469231731687303715884105727, 1),
        right: (
            170141183460469231731687303715884105726,
            170141183460469231731687303715884105727,
        ),
        sum: None,
        difference: None,
        product: Some((170141183460469231731687303715884105726, 1)),
        quotient: None,
        order: Ordering::Greater,
    },
    Case {
        left: (1, 170141183460469231731687303715884105727),
        right: (1, 170141183460469231731687303715884105727),
        sum: Some((2, 170141183460469231731687303715884105727)),
        difference: Some((0, 1)),
        product: None,
        quotient: Some((1, 1)),
        order: Ordering::Equal,
    },
    Case {
        left: (
            170141183460469231731687303715884105727,
            170141183460469231731687303715884105726,
        ),
        right: (
            170141183460469231731687303715884105726,
            170141183460469231731687303715884105727,
        ),
        sum: None,
        difference: None,
        product: Some((1, 1)),
        quotient: None,
        order: Ordering::Greater,
    },
    Case {
        left: (0, 1),
        right: (5, 7),
        sum: Some((5, 7)),
        difference: Some((-5, 7)),
        product: Some((0, 1)),
        quotient: Some((0, 1)),
        order: Ordering::Less,
    },
    Case {
        left: (18446744073709551616, 3),
        right: (3, 18446744073709551616),
        sum: None,
        difference: None,
        product: Some((1, 1)),
        quotient: None,
        order: Ordering::Greater,
    },
    Case {
        left: (18446744073709551616, 1),
        right: (9223372036854775808, 1),
        sum: Some((27670116110564327424, 1)),
        difference: Some((9223372036854775808, 1)),
        product: None,
        quotient: Some((2, 1)),
        order: Ordering::Greater,
    },
    Case {
        left: (9223372036854775808, 1),
        right: (9223372036854775808, 1),
        sum: Some((18446744073709551616, 1)),
        difference: Some((0, 1)),
        product: Some((85070591730234615865843651857942052864, 1)),
        quotient: Some((1, 1)),
        order: Ordering::Equal,
    },
];

static FURTHER_CASES: [Case; 10] = [
    Case {
        left: (1267650600228229401496703205376, 134217727),
        right: (134217727, 1267650600228229401496703205377),
        sum: None,
        difference: None,
        product: Some((
            1267650600228229401496703205376,
            1267650600228229401496703205377,
        )),
        quotient: None,
        order: Ordering::Greater,
    },
    Case {
        left: (1, 18446744073709551616),
        right: (1, 9223372036854775809),
        sum: None,
        difference: None,
        product: None,
        quotient: Some((9223372036854775809, 18446744073709551616)),
        order: Ordering::Less,
    },
    Case {
        left: (1, 9223372036854775808),
        right: (1, 4611686018427387904),
        sum: Some((3, 9223372036854775808)),
        difference: Some((-1, 9223372036854775808)),
        product: Some((1, 42535295865117307932921825928971026432)),
        quotient: Some((1, 2)),
        order: Ordering::Less,
    },
    Case {
        left: (-5, 6),
        right: (-7, 8),
        sum: Some((-41, 24)),
        difference: Some((1, 24)),
        product: Some((35, 48)),
        quotient: Some((20, 21)),
        order: Ordering::Greater,
    },
    Case {
        left: (-5, 6),
        right: (7, 8),
        sum: Some((1, 24)),
        difference: Some((-41, 24)),
        product: Some((-35, 48)),
        quotient: Some((-20, 21)),
        order: Ordering::Less,
    },
    Case {
        left: (170141183460469231731687303715884105727, 2),
        right: (170141183460469231731687303715884105727, 2),
        sum: None,
        difference: Some((0, 1)),
        product: None,
        quotient: Some((1, 1)),
        order: Ordering::Equal,
    },
    Case {
        left: (170141183460469231731687303715884105727, 3),
        right: (-170141183460469231731687303715884105727, 2),
        sum: None,
        difference: None,
        product: None,
        quotient: Some((-2, 3)),
        order: Ordering::Greater,
    },
    Case {
        left: (
            1000000000000000000000000000057,
            100000000000000000000000000033,
        ),
        right: (
            1000000000000000000000000000058,
            100000000000000000000000000033,
        ),
        sum: Some((
            2000000000000000000000000000115,
            100000000000000000000000000033,
        )),
        difference: Some((-1, 100000000000000000000000000033)),
        product: None,
        quotient: Some((
            1000000000000000000000000000057,
            1000000000000000000000000000058,
        )),
        order: Ordering::Less,
    },
    Case {
        left: (85070591730234615865843651857942052864, 1),
        right: (85070591730234615865843651857942052864, 1),
        sum: None,
        difference: Some((0, 1)),
        product: None,
        quotient: Some((1, 1)),
        order: Ordering::Equal,
    },
    Case {
        left: (85070591730234615865843651857942052864, 1),
        right: (85070591730234615865843651857942052863, 1),
        sum: Some((170141183460469231731687303715884105727, 1)),
        difference: Some((1, 1)),
        product: None,
        quotient: Some((
            85070591730234615865843651857942052864,
            85070591730234615865843651857942052863,
        )),
        order: Ordering::Greater,
    },
];

static FRACTIONS: [(Fraction, Option<Fraction>); 9] = [
    ((6, -4), Some((-3, 2))),
    ((0, -5), Some((0, 1))),
    (
        (-170141183460469231731687303715884105728, 2),
        Some((-85070591730234615865843651857942052864, 1)),
    ),
    ((-170141183460469231731687303715884105728, 1), None),
    ((1, -170141183460469231731687303715884105728), None),
    (
        (
            170141183460469231731687303715884105727,
            -170141183460469231731687303715884105727,
        ),
        Some((-1, 1)),
    ),
    (
        (
            -170141183460469231731687303715884105728,
            -170141183460469231731687303715884105728,
        ),
        Some((1, 1)),
    ),
    (
        (2, -170141183460469231731687303715884105728),
        Some((-1, 85070591730234615865843651857942052864)),
    ),
    ((12, 18), Some((2, 3))),
];

fn parts(number: Result<Rat, Overflow>) -> Option<Fraction> {
    match number {
        Ok(number) => Some((number.num(), number.den())),
        Err(_) => None,
    }
}

/// The fraction, of which the denominator is not 0.
fn number(fraction: Fraction) -> Result<Rat, Fail> {
    if fraction.1 == 0 {
        return Err(Fail::from("no denominator"));
    }
    Ok(Rat::new(fraction.0, fraction.1)?)
}

fn quotient(left: &Rat, right: &Rat) -> Option<Fraction> {
    if right.num() == 0 {
        return None;
    }
    parts(left.div(right))
}

/// Whether each operation gives what its case says.
fn are_worked_out(cases: &[Case]) -> Result<bool, Fail> {
    for case in cases {
        let left = number(case.left)?;
        let right = number(case.right)?;
        let is_right = parts(left.add(&right)) == case.sum
            && parts(left.sub(&right)) == case.difference
            && parts(left.mul(&right)) == case.product
            && quotient(&left, &right) == case.quotient
            && left.cmp(&right) == case.order;
        if !is_right {
            return Ok(false);
        }
    }
    Ok(true)
}

#[test]
fn numbers(rt: HostRuntime) -> Result<(), Fail> {
    assert!(rt; are_worked_out(CASES.as_slice())?);
    assert!(rt; are_worked_out(FURTHER_CASES.as_slice())?);
    for (fraction, lowest) in &FRACTIONS {
        assert!(rt; fraction.1 != 0);
        assert_eq!(rt; parts(Rat::new(fraction.0, fraction.1)), *lowest);
    }
    assert_eq!(rt; gcd(0, 0), 0);
    assert_eq!(rt; gcd(84, 36), 12);
    Ok(())
}

type Terms = &'static [(u64, i128)];

/// Pairs and a constant, and the normal form of their sum.
struct Given {
    pairs: &'static [(u64, Fraction)],
    constant: Fraction,
    op: Op,
    row: Option<(Terms, i128)>,
}

static ROWS: [Given; 14] = [
    Given {
        pairs: &[(0, (1, 2)), (1, (-1, 3))],
        constant: (1, 1),
        op: Op::Le,
        row: Some((&[(0, 3), (1, -2)], 6)),
    },
    Given {
        pairs: &[(1, (1, 2)), (0, (1, 3)), (1, (-1, 2))],
        constant: (0, 1),
        op: Op::Eq,
        row: Some((&[(0, 1)], 0)),
    },
    Given {
        pairs: &[(0, (-2, 1))],
        constant: (4, 1),
        op: Op::Eq,
        row: Some((&[(0, 1)], -2)),
    },
    Given {
        pairs: &[(0, (-2, 1))],
        constant: (4, 1),
        op: Op::Lt,
        row: Some((&[(0, -1)], 2)),
    },
    Given {
        pairs: &[],
        constant: (-3, 1),
        op: Op::Ne,
        row: Some((&[], 1)),
    },
    Given {
        pairs: &[],
        constant: (-3, 1),
        op: Op::Le,
        row: Some((&[], -1)),
    },
    Given {
        pairs: &[(5, (1, 1)), (5, (-1, 1))],
        constant: (0, 1),
        op: Op::Le,
        row: Some((&[], 0)),
    },
    Given {
        pairs: &[(7, (1, 1)), (2, (2, 1)), (4, (3, 1)), (2, (4, 1))],
        constant: (5, 1),
        op: Op::Lt,
        row: Some((&[(2, 6), (4, 3), (7, 1)], 5)),
    },
    Given {
        pairs: &[
            (0, (1, 18446744073709551616)),
            (1, (1, 9223372036854775807)),
        ],
        constant: (0, 1),
        op: Op::Eq,
        row: Some((&[(0, 9223372036854775807), (1, 18446744073709551616)], 0)),
    },
    Given {
        pairs: &[
            (0, (1, 18446744073709551616)),
            (1, (1, 9223372036854775809)),
        ],
        constant: (0, 1),
        op: Op::Eq,
        row: None,
    },
    Given {
        pairs: &[(0, (170141183460469231731687303715884105727, 2))],
        constant: (1, 3),
        op: Op::Lt,
        row: None,
    },
    Given {
        pairs: &[
            (3, (170141183460469231731687303715884105727, 1)),
            (3, (1, 1)),
        ],
        constant: (0, 1),
        op: Op::Lt,
        row: None,
    },
    Given {
        pairs: &[
            (3, (170141183460469231731687303715884105727, 1)),
            (3, (-1, 1)),
        ],
        constant: (1, 1),
        op: Op::Lt,
        row: Some((&[(3, 170141183460469231731687303715884105726)], 1)),
    },
    Given {
        pairs: &[(0, (4, 3)), (1, (2, 3))],
        constant: (-2, 9),
        op: Op::Ne,
        row: Some((&[(0, 6), (1, 3)], -1)),
    },
];

enum Change {
    Put(u64, Fraction),
    Join(u64, u64),
}

/// A row, a variable of it replaced, and what it becomes.
struct Changed {
    pairs: &'static [(u64, Fraction)],
    constant: Fraction,
    op: Op,
    change: Change,
    row: Option<(Terms, i128)>,
}

static CHANGES: [Changed; 16] = [
    Changed {
        pairs: &[(0, (1, 2)), (1, (-1, 3))],
        constant: (1, 1),
        op: Op::Le,
        change: Change::Put(0, (2, 3)),
        row: Some((&[(1, -1)], 4)),
    },
    Changed {
        pairs: &[(0, (1, 2)), (1, (-1, 3))],
        constant: (1, 1),
        op: Op::Le,
        change: Change::Join(0, 1),
        row: Some((&[(1, 1)], 6)),
    },
    Changed {
        pairs: &[(0, (1, 2)), (1, (-1, 3))],
        constant: (1, 1),
        op: Op::Le,
        change: Change::Put(9, (1, 5)),
        row: Some((&[(0, 3), (1, -2)], 6)),
    },
    Changed {
        pairs: &[(0, (1, 2)), (1, (-1, 3))],
        constant: (1, 1),
        op: Op::Le,
        change: Change::Join(1, 9),
        row: Some((&[(0, 3), (9, -2)], 6)),
    },
    Changed {
        pairs: &[(0, (1267650600228229401496703205376, 1)), (1, (1, 1))],
        constant: (0, 1),
        op: Op::Eq,
        change: Change::Put(1, (1, 1073741824)),
        row: None,
    },
    Changed {
        pairs: &[(0, (1267650600228229401496703205376, 1)), (1, (1, 1))],
        constant: (0, 1),
        op: Op::Eq,
        change: Change::Put(1, (1, 134217727)),
        row: Some((&[(0, 170141182192818631503457902219180900352)], 1)),
    },
    Changed {
        pairs: &[(1, (2, 1))],
        constant: (-1, 1),
        op: Op::Ne,
        change: Change::Put(1, (1, 2)),
        row: Some((&[], 0)),
    },
    Changed {
        pairs: &[(1, (-2, 1)), (2, (1, 1))],
        constant: (1, 1),
        op: Op::Lt,
        change: Change::Put(1, (-1, 2)),
        row: Some((&[(2, 1)], 2)),
    },
    Changed {
        pairs: &[(0, (1, 1)), (1, (-1, 1))],
        constant: (0, 1),
        op: Op::Eq,
        change: Change::Put(0, (3, 1)),
        row: Some((&[(1, 1)], -3)),
    },
    Changed {
        pairs: &[(0, (170141183460469231731687303715884105727, 1))],
        constant: (0, 1),
        op: Op::Lt,
        change: Change::Put(0, (2, 1)),
        row: Some((&[], 1)),
    },
    Changed {
        pairs: &[(0, (170141183460469231731687303715884105727, 1))],
        constant: (-1, 1),
        op: Op::Lt,
        change: Change::Put(0, (1, 1)),
        row: Some((&[], 1)),
    },
    Changed {
        pairs: &[
            (0, (170141183460469231731687303715884105727, 1)),
            (1, (1, 1)),
        ],
        constant: (0, 1),
        op: Op::Lt,
        change: Change::Join(0, 1),
        row: None,
    },
    Changed {
        pairs: &[
            (0, (170141183460469231731687303715884105727, 1)),
            (1, (-1, 1)),
        ],
        constant: (0, 1),
        op: Op::Lt,
        change: Change::Join(0, 1),
        row: Some((&[(1, 1)], 0)),
    },
    Changed {
        pairs: &[(0, (1, 1)), (1, (-1, 1))],
        constant: (1, 1),
        op: Op::Lt,
        change: Change::Join(0, 1),
        row: Some((&[], 1)),
    },
    Changed {
        pairs: &[(0, (2, 1))],
        constant: (3, 1),
        op: Op::Eq,
        change: Change::Join(0, 5),
        row: Some((&[(5, 2)], 3)),
    },
    Changed {
        pairs: &[(3, (-1, 1)), (5, (2, 1)), (8, (7, 1))],
        constant: (3, 1),
        op: Op::Eq,
        change: Change::Join(8, 3),
        row: Some((&[(3, 6), (5, 2)], 3)),
    },
];

fn pairs(alloc: Global, given: &[(u64, Fraction)]) -> Result<RatPairs, Fail> {
    let mut pairs = RatPairs::new(alloc);
    for (x, fraction) in given {
        let value = number(*fraction)?;
        pairs.push(RatPair { x: *x, value })?;
    }
    Ok(pairs)
}

/// Whether the answer is the row, or Overflow where none is wanted.
fn is_wanted(answer: &Result<Row, RowErr>, op: Op, want: &Option<(Terms, i128)>) -> bool {
    match answer {
        Ok(row) => matches!(want, Some((terms, constant)) if is_row(row, terms, *constant, op)),
        Err(RowErr::Overflow) => want.is_none(),
        Err(RowErr::Memory) => false,
    }
}

#[test]
fn rows(rt: HostRuntime) -> Result<(), Fail> {
    for given in &ROWS {
        let pairs = pairs(rt.alloc(), given.pairs)?;
        let answer = Row::normal(rt.alloc(), &pairs, &number(given.constant)?, given.op);
        assert!(rt; is_wanted(&answer, given.op, &given.row));
    }
    Ok(())
}

fn after_change(row: &Row, change: &Change) -> Result<Result<Row, RowErr>, Fail> {
    match change {
        Change::Put(x, fraction) => {
            let value = number(*fraction)?;
            Ok(row.put(*x, &value))
        }
        Change::Join(x, y) => {
            if x == y {
                return Err(Fail::from("one variable"));
            }
            Ok(row.join(*x, *y))
        }
    }
}

#[test]
fn changes(rt: HostRuntime) -> Result<(), Fail> {
    for case in &CHANGES {
        let pairs = pairs(rt.alloc(), case.pairs)?;
        let row = Row::normal(rt.alloc(), &pairs, &number(case.constant)?, case.op)?;
        let answer = after_change(&row, &case.change)?;
        assert!(rt; is_wanted(&answer, case.op, &case.row));
    }
    Ok(())
}

/// The row `V1+6 #=< 0`.
fn low(alloc: Global) -> Result<Row, Fail> {
    let given = pairs(alloc, &[(1, (1, 1))])?;
    Ok(Row::normal(alloc, &given, &number((6, 1))?, Op::Le)?)
}

/// The negation `-V1-6 #< 0` and the row `V1+6 #< 0`.
#[test]
fn negations(rt: HostRuntime) -> Result<(), Fail> {
    let row = low(rt.alloc())?;
    assert!(rt; is_row(&row.negate()?, &[(1, -1)], -6, Op::Lt));
    assert!(rt; is_row(&row.compared(Op::Lt)?, &[(1, 1)], 6, Op::Lt));
    Ok(())
}

#[test]
fn lists_of_rows(rt: HostRuntime) -> Result<(), Fail> {
    let mut rows = Rows::new(rt.alloc());
    rows.push(low(rt.alloc())?)?;
    rows.push(low(rt.alloc())?)?;
    assert_eq!(rt; rows.len(), 2);
    Ok(())
}

static STEP: Step = Step {
    a: 1,
    p: 1,
    b: -2,
    q: 2,
};

#[test]
fn lists_of_steps(rt: HostRuntime) -> Result<(), Fail> {
    let mut steps = Steps::new(rt.alloc());
    steps.push(STEP)?;
    assert!(rt; steps.get(0) == Some(&STEP) && steps.get(1).is_none());
    let mut lists = StepLists::new(rt.alloc());
    lists.push(steps)?;
    assert_eq!(rt; lists.len(), 1);
    Ok(())
}
