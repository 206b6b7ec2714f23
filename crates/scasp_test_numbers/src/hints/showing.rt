//! Which fault a hint has. The answers were worked out by hand from the rules.
use crate::constraints::Told::{Compared, Differ, Equal, NoNumber, Number};
use crate::constraints::Written::{F, N, V};
use crate::constraints::{Told, constraints};
use crate::hints::tried::Tried::{ByRows, BySame, ByTerms};
use crate::hints::tried::{Tried, hint};
use scasp_hint::{HintErr, HintFault, unsat};
use scasp_num::Op::{Le, Lt, Ne};
use std::alloc::Global;
use std::test::Fail;

struct Case {
    list: &'static [Told],
    hint: Tried,
    fault: Option<HintFault>,
}

/// num(V0), -2*V0+3 < 0, 2*V0-3 < 0
const BETWEEN: &[Told] = &[
    Number(0),
    Compared(&[(0, -2)], 3, Lt),
    Compared(&[(0, 2)], -3, Lt),
];

/// num(V0), -V0 =< 0, V0 =< 0, 0 \= V0
const ZERO: &[Told] = &[
    Number(0),
    Compared(&[(0, -1)], 0, Le),
    Compared(&[(0, 1)], 0, Le),
    Differ(N(0), V(0)),
];

/// num(V0), num(V1), V0 =< 0, -V0 =< 0, V1 =< 0, -V1 =< 0, g(V0, V1) \= g(0, 0)
const TWO_PARTS: &[Told] = &[
    Number(0),
    Number(1),
    Compared(&[(0, 1)], 0, Le),
    Compared(&[(0, -1)], 0, Le),
    Compared(&[(1, 1)], 0, Le),
    Compared(&[(1, -1)], 0, Le),
    Differ(F(5, &[V(0), V(1)]), F(5, &[N(0), N(0)])),
];

/// V0 is the greatest number, and 2*V0+V1 =\= 0
const LARGE: &[Told] = &[
    Equal(V(0), N(i128::MAX)),
    Compared(&[(0, 2), (1, 1)], 0, Ne),
];

static CASES: [Case; 16] = [
    Case {
        list: BETWEEN,
        hint: ByRows(&[(1, 1, 1, 2)]),
        fault: None,
    },
    // The sum 2*V0-3 < 0 is not false.
    Case {
        list: BETWEEN,
        hint: ByRows(&[(1, 1, 2, 2)]),
        fault: Some(HintFault::NotReached),
    },
    Case {
        list: BETWEEN,
        hint: ByRows(&[(i128::MAX, 1, 1, 2)]),
        fault: Some(HintFault::Overflow),
    },
    Case {
        list: BETWEEN,
        hint: ByRows(&[(1, 1, 1, 9)]),
        fault: Some(HintFault::Step),
    },
    // Rows are counted from 1.
    Case {
        list: BETWEEN,
        hint: ByRows(&[(1, 0, 1, 2)]),
        fault: Some(HintFault::Step),
    },
    // A multiplier below 0 at a row that is no equation.
    Case {
        list: BETWEEN,
        hint: ByRows(&[(-1, 1, 1, 2)]),
        fault: Some(HintFault::Step),
    },
    // The third row is the false one that the first step adds; every step is run.
    Case {
        list: BETWEEN,
        hint: ByRows(&[(1, 1, 1, 2), (1, 3, 1, 1)]),
        fault: None,
    },
    Case {
        list: BETWEEN,
        hint: ByRows(&[(1, 1, 1, 2), (1, 4, 1, 1)]),
        fault: Some(HintFault::Step),
    },
    // The first fault counts: an overflow before a row that is not there, and the other way round.
    Case {
        list: BETWEEN,
        hint: ByRows(&[(i128::MAX, 1, 1, 2), (1, 1, 1, 9)]),
        fault: Some(HintFault::Overflow),
    },
    Case {
        list: BETWEEN,
        hint: ByRows(&[(1, 1, 1, 9), (i128::MAX, 1, 1, 2)]),
        fault: Some(HintFault::Step),
    },
    Case {
        list: BETWEEN,
        hint: ByTerms,
        fault: Some(HintFault::NotReached),
    },
    Case {
        list: BETWEEN,
        hint: ByRows(&[]),
        fault: Some(HintFault::NotReached),
    },
    // A false row that is given is not counted as reached, but `terms` shows it.
    Case {
        list: &[Compared(&[], 1, Lt)],
        hint: ByRows(&[]),
        fault: Some(HintFault::NotReached),
    },
    Case {
        list: &[Compared(&[], 1, Lt)],
        hint: ByTerms,
        fault: None,
    },
    // 0 \= V0 has the sides -V0 < 0 and V0 < 0 in this order, by its own sides and not by those of the row V0 =\= 0.
    Case {
        list: ZERO,
        hint: BySame(1, &[&[(1, 2, 1, 3)], &[(1, 1, 1, 3)]]),
        fault: None,
    },
    Case {
        list: ZERO,
        hint: BySame(1, &[&[(1, 1, 1, 3)], &[(1, 2, 1, 3)]]),
        fault: Some(HintFault::NotReached),
    },
];

static FURTHER_CASES: [Case; 12] = [
    // The side is the row behind those of the list, so that there is no fourth row.
    Case {
        list: ZERO,
        hint: BySame(1, &[&[(1, 2, 1, 4)], &[(1, 1, 1, 4)]]),
        fault: Some(HintFault::Step),
    },
    Case {
        list: ZERO,
        hint: BySame(2, &[&[(1, 2, 1, 3)], &[(1, 1, 1, 3)]]),
        fault: Some(HintFault::Step),
    },
    Case {
        list: ZERO,
        hint: BySame(0, &[&[(1, 2, 1, 3)], &[(1, 1, 1, 3)]]),
        fault: Some(HintFault::Step),
    },
    Case {
        list: ZERO,
        hint: BySame(1, &[&[(1, 2, 1, 3)]]),
        fault: Some(HintFault::Step),
    },
    Case {
        list: TWO_PARTS,
        hint: BySame(
            1,
            &[
                &[(1, 2, 1, 5)],
                &[(1, 1, 1, 5)],
                &[(1, 4, 1, 5)],
                &[(1, 3, 1, 5)],
            ],
        ),
        fault: None,
    },
    // The last side is not shown.
    Case {
        list: TWO_PARTS,
        hint: BySame(
            1,
            &[
                &[(1, 2, 1, 5)],
                &[(1, 1, 1, 5)],
                &[(1, 4, 1, 5)],
                &[(1, 4, 1, 5)],
            ],
        ),
        fault: Some(HintFault::NotReached),
    },
    // V0 \= V0 has no part, and so no side.
    Case {
        list: &[Differ(V(0), V(0))],
        hint: BySame(1, &[]),
        fault: None,
    },
    // A part that is not between two numbers.
    Case {
        list: &[Number(0), Differ(V(0), V(1))],
        hint: BySame(1, &[&[], &[]]),
        fault: Some(HintFault::Step),
    },
    Case {
        list: LARGE,
        hint: ByTerms,
        fault: Some(HintFault::Overflow),
    },
    Case {
        list: LARGE,
        hint: BySame(1, &[&[], &[]]),
        fault: Some(HintFault::Overflow),
    },
    Case {
        list: LARGE,
        hint: BySame(1, &[&[]]),
        fault: Some(HintFault::Step),
    },
    // num(V0), not num(V0)
    Case {
        list: &[Number(0), NoNumber(0)],
        hint: ByTerms,
        fault: None,
    },
];

/// The answer where the hint has this fault.
fn outcome(fault: Option<HintFault>) -> Result<(), HintErr> {
    match fault {
        None => Ok(()),
        Some(fault) => Err(HintErr::Fault(fault)),
    }
}

/// Whether each hint is judged as its case says.
fn are_judged(alloc: Global, cases: &[Case]) -> Result<bool, Fail> {
    for case in cases {
        let list = constraints(alloc, case.list)?;
        let tried = hint(alloc, &case.hint)?;
        if unsat(alloc, list.as_slice(), &tried) != outcome(case.fault) {
            return Ok(false);
        }
    }
    Ok(true)
}

#[test]
fn hints_are_judged(rt: HostRuntime) -> Result<(), Fail> {
    assert!(rt; are_judged(rt.alloc(), CASES.as_slice())?);
    assert!(rt; are_judged(rt.alloc(), FURTHER_CASES.as_slice())?);
    Ok(())
}
