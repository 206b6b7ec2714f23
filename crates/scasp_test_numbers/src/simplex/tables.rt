//! Rows that come and go, by hand and from the literature.
use crate::simplex::trials::{Trial, Wanted, copies};
use crate::written::{Given, row_of};
use scasp_num::{Op, Row};
use scasp_rows::{LinErr, eliminate, is_free_of_disequations};
use std::alloc::Global;
use std::test::Fail;

/// A call, or what a call answers.
enum Call {
    Push(Given),
    /// The marks are numbered from 0.
    Mark,
    Undo(usize),
    Decide(Wanted),
}

const SAT: Call = Call::Decide(Wanted::Sat);

const UNSAT: Call = Call::Decide(Wanted::Unsat);

const OVERFLOW: Call = Call::Decide(Wanted::Overflow);

/// The greatest number, and the one below.
const MOST: i128 = 170141183460469231731687303715884105727;

const BELOW_MOST: i128 = 170141183460469231731687303715884105726;

static TABLES: [&[Call]; 8] = [
    // nothing; a strict row against one that is not, undone between
    &[
        SAT,
        Call::Push((&[(0, -1)], 0, Op::Lt)),
        Call::Mark,
        SAT,
        Call::Push((&[(0, 1)], 0, Op::Le)),
        UNSAT,
        Call::Undo(0),
        SAT,
    ],
    // an open interval, and a row beside it
    &[
        Call::Push((&[(0, -1)], 3, Op::Lt)),
        Call::Push((&[(0, 1)], -5, Op::Lt)),
        Call::Mark,
        Call::Push((&[(0, 1)], -2, Op::Lt)),
        UNSAT,
        Call::Undo(0),
        SAT,
    ],
    // equal rows, and the same rows pushed after an undo
    &[
        Call::Mark,
        Call::Push((&[(0, 1), (1, 1)], -1, Op::Le)),
        Call::Push((&[(0, 1), (1, 1)], -1, Op::Le)),
        Call::Push((&[(0, -1), (1, -1)], 1, Op::Le)),
        SAT,
        Call::Push((&[(0, 1), (1, 1)], -1, Op::Lt)),
        UNSAT,
        UNSAT,
        Call::Undo(0),
        Call::Push((&[(0, 1), (1, 1)], -1, Op::Lt)),
        SAT,
        Call::Push((&[(0, -1), (1, -1)], 1, Op::Le)),
        UNSAT,
    ],
    // rows without variables
    &[
        Call::Push((&[], -1, Op::Lt)),
        Call::Push((&[], 0, Op::Le)),
        Call::Push((&[], 0, Op::Eq)),
        SAT,
        Call::Mark,
        Call::Push((&[(3, 1)], 0, Op::Eq)),
        Call::Push((&[], 0, Op::Lt)),
        UNSAT,
        Call::Undo(0),
        Call::Push((&[], 1, Op::Eq)),
        UNSAT,
        Call::Undo(0),
        Call::Push((&[], 7, Op::Le)),
        UNSAT,
        Call::Undo(0),
        Call::Push((&[], 1, Op::Lt)),
        UNSAT,
    ],
    // a region without bound
    &[
        Call::Push((&[(0, -1), (1, 2)], 5, Op::Lt)),
        Call::Push((&[(0, -3), (2, 1)], 0, Op::Le)),
        Call::Push((&[(1, -1)], 100, Op::Le)),
        SAT,
        Call::Push((&[(0, 1)], -204, Op::Le)),
        UNSAT,
    ],
    // a point, alone and cut off
    &[
        Call::Push((&[(0, 1), (1, 1)], -3, Op::Eq)),
        Call::Push((&[(0, 1), (1, -1)], 1, Op::Eq)),
        SAT,
        Call::Mark,
        Call::Push((&[(0, 1)], -1, Op::Lt)),
        UNSAT,
        Call::Undo(0),
        Call::Push((&[(0, 1)], -1, Op::Le)),
        Call::Push((&[(1, -1)], 2, Op::Le)),
        SAT,
        Call::Push((&[(0, 2), (1, 3)], -9, Op::Eq)),
        UNSAT,
    ],
    // equations alone, with and without a solution
    &[
        Call::Push((&[(0, 2), (1, 3), (2, -1)], -1, Op::Eq)),
        Call::Push((&[(0, 1), (1, -1), (2, 2)], -4, Op::Eq)),
        SAT,
        Call::Push((&[(0, 3), (1, 2), (2, 1)], -5, Op::Eq)),
        SAT,
        Call::Push((&[(0, 3), (1, 2), (2, 1)], -6, Op::Eq)),
        UNSAT,
    ],
    // strict and not strict on one line
    &[
        Call::Push((&[(0, 2), (1, -3)], -1, Op::Le)),
        Call::Mark,
        Call::Push((&[(0, -2), (1, 3)], 1, Op::Le)),
        SAT,
        Call::Undo(0),
        Call::Push((&[(0, -2), (1, 3)], 1, Op::Lt)),
        UNSAT,
        Call::Undo(0),
        Call::Push((&[(0, -4), (1, 6)], 1, Op::Lt)),
        SAT,
    ],
];

static FURTHER_TABLES: [&[Call]; 7] = [
    // Beale (1955): a start at which other rules come back to the same basis; the least value is -5/4
    &[
        Call::Push((&[(3, -1)], 0, Op::Le)),
        Call::Push((&[(4, -1)], 0, Op::Le)),
        Call::Push((&[(5, -1)], 0, Op::Le)),
        Call::Push((&[(6, -1)], 0, Op::Le)),
        Call::Push((&[(3, 1), (4, -32), (5, -4), (6, 36)], 0, Op::Le)),
        Call::Push((&[(3, 1), (4, -24), (5, -1), (6, 6)], 0, Op::Le)),
        Call::Push((&[(5, 1)], -1, Op::Le)),
        SAT,
        Call::Mark,
        Call::Push((&[(3, -3), (4, 80), (5, -2), (6, 24)], 5, Op::Le)),
        SAT,
        Call::Undo(0),
        Call::Push((&[(3, -3), (4, 80), (5, -2), (6, 24)], 5, Op::Lt)),
        UNSAT,
        Call::Undo(0),
        SAT,
    ],
    // Marshall and Suurballe (1969): the greatest value is 1
    &[
        Call::Push((&[(1, -1)], 0, Op::Le)),
        Call::Push((&[(2, -1)], 0, Op::Le)),
        Call::Push((&[(3, -1)], 0, Op::Le)),
        Call::Push((&[(4, -1)], 0, Op::Le)),
        Call::Push((&[(1, 1), (2, -11), (3, -5), (4, 18)], 0, Op::Le)),
        Call::Push((&[(1, 1), (2, -3), (3, -1), (4, 2)], 0, Op::Le)),
        Call::Push((&[(1, 1)], -1, Op::Le)),
        Call::Mark,
        Call::Push((&[(1, -10), (2, 57), (3, 9), (4, 24)], 1, Op::Le)),
        SAT,
        Call::Undo(0),
        Call::Push((&[(1, -10), (2, 57), (3, 9), (4, 24)], 1, Op::Lt)),
        UNSAT,
    ],
    // the last row pushed counts, also where the rows before it were decided
    &[
        Call::Push((&[(0, 1)], -1, Op::Le)),
        SAT,
        Call::Push((&[(0, -1)], 2, Op::Le)),
        UNSAT,
    ],
    // bounds go with their rows, at once, out of turn and twice
    &[
        Call::Mark,
        Call::Push((&[(0, 1), (1, 1)], -1, Op::Le)),
        Call::Mark,
        Call::Push((&[(0, -1)], 1, Op::Lt)),
        Call::Mark,
        Call::Push((&[(1, -1)], 0, Op::Le)),
        UNSAT,
        Call::Undo(2),
        SAT,
        Call::Undo(1),
        Call::Push((&[(1, -1)], 0, Op::Le)),
        SAT,
        Call::Undo(0),
        Call::Push((&[(0, -1)], 1, Op::Lt)),
        Call::Push((&[(1, -1)], 0, Op::Le)),
        SAT,
        Call::Undo(0),
        SAT,
    ],
    // no common denominator is in range: the elimination decides
    &[
        Call::Push((&[(0, MOST)], -1, Op::Eq)),
        Call::Push((&[(1, BELOW_MOST)], -1, Op::Eq)),
        SAT,
        Call::Push((&[(0, 1)], 0, Op::Le)),
        UNSAT,
    ],
    // neither the tableau nor the elimination can
    &[
        Call::Push((
            &[(0, 85070591730234615865843651857942052864), (1, 3)],
            -1,
            Op::Eq,
        )),
        Call::Mark,
        Call::Push((&[(0, 5), (1, -1)], -2, Op::Eq)),
        OVERFLOW,
        OVERFLOW,
        Call::Undo(0),
        SAT,
    ],
    // fractions, and the greatest variable there is
    &[
        Call::Push((&[(u64::MAX, 3), (7, -7)], 1, Op::Eq)),
        Call::Push((&[(7, 5), (u64::MAX, -2)], -1, Op::Lt)),
        Call::Push((&[(7, -1)], -1000, Op::Le)),
        SAT,
        Call::Push((&[(7, -1)], 4, Op::Le)),
        UNSAT,
    ],
];

/// Whether the call goes as it is told.
fn goes(alloc: Global, trial: &mut Trial, call: &Call) -> Result<bool, Fail> {
    match call {
        Call::Push((terms, constant, op)) => {
            trial.push(row_of(alloc, terms, *constant, *op)?)?;
            Ok(true)
        }
        Call::Mark => {
            trial.mark()?;
            Ok(true)
        }
        Call::Undo(number) => match trial.marks.get(*number) {
            Some(mark) => {
                let mark = *mark;
                trial.undo(mark);
                Ok(true)
            }
            None => Ok(false),
        },
        Call::Decide(wanted) => Ok(trial.decided(alloc)? == Some(*wanted)),
    }
}

/// Whether the calls of each table, one behind the other, go as they say.
fn all_go(alloc: Global, tables: &[&[Call]]) -> Result<bool, Fail> {
    for table in tables {
        let mut trial = Trial::new(alloc);
        for call in *table {
            if !goes(alloc, &mut trial, call)? {
                return Ok(false);
            }
        }
    }
    Ok(true)
}

#[test]
fn rows_come_and_go(rt: HostRuntime) -> Result<(), Fail> {
    assert!(rt; all_go(rt.alloc(), TABLES.as_slice())?);
    assert!(rt; all_go(rt.alloc(), FURTHER_TABLES.as_slice())?);
    Ok(())
}

/// Pushes that V0 compares so with Vi for 65 variables, and Vj+1 with V0 for 65 others.
fn push_many(alloc: Global, trial: &mut Trial, op: Op) -> Result<(), Fail> {
    for i in 1..66 {
        trial.push(row_of(alloc, &[(0, 1), (i, -1)], 0, op)?)?;
    }
    for j in 66..131 {
        trial.push(row_of(alloc, &[(0, -1), (j, 1)], 1, op)?)?;
    }
    Ok(())
}

/// Whether the elimination of the rows overflows.
fn overflows(alloc: Global, rows: &[Row]) -> Result<bool, Fail> {
    let rows = copies(alloc, rows)?;
    Ok(is_free_of_disequations(&rows) && matches!(eliminate(alloc, &rows), Err(LinErr::Overflow)))
}

#[test]
fn elimination_overflows(rt: HostRuntime) -> Result<(), Fail> {
    let mut trial = Trial::new(rt.alloc());
    push_many(rt.alloc(), &mut trial, Op::Le)?;
    assert!(rt; trial.decided(rt.alloc())? == Some(Wanted::Sat));
    assert!(rt; overflows(rt.alloc(), trial.rows.as_slice())?);
    Ok(())
}

/// What only the tableau decides: strict rows, a row more, and the rows without it.
#[test]
fn tableau_alone_decides(rt: HostRuntime) -> Result<(), Fail> {
    let mut trial = Trial::new(rt.alloc());
    push_many(rt.alloc(), &mut trial, Op::Lt)?;
    assert!(rt; trial.decided(rt.alloc())? == Some(Wanted::Sat));
    let mark = trial.tableau.mark();
    trial.push(row_of(rt.alloc(), &[(1, 2), (66, -2)], -1, Op::Le)?)?;
    assert!(rt; trial.decided(rt.alloc())? == Some(Wanted::Unsat));
    assert!(rt; overflows(rt.alloc(), trial.rows.as_slice())?);
    trial.undo(mark);
    assert!(rt; trial.decided(rt.alloc())? == Some(Wanted::Sat));
    Ok(())
}
