//! Rows under a rule's terms and in a pair.
use crate::places::made::two;
use crate::rows::row_of;
use scasp_disjoint::{Raising, con_raised};
use scasp_lines_places::{ClauseValues, determined};
use scasp_num::Op;
use scasp_syntax::{Con, Term};
use std::alloc::Global;
use std::test::Fail;

/// x0 - 2*x1 < 0.
fn row(alloc: Global) -> Result<Con, Fail> {
    Ok(Con::Row(row_of(alloc, &[(0, 1), (1, -2)], 0, Op::Lt)?))
}

/// The variable of the last coefficient, and the coefficient.
fn last(constraint: &Con) -> Option<(u64, i128)> {
    let Con::Row(row) = constraint else {
        return None;
    };
    row.coeffs().as_slice().last().map(|k| (k.x, k.c))
}

/// Of a raised row the variables that are not free are others, and nothing else changes.
#[test]
fn a_row_is_raised(rt: HostRuntime) -> Result<(), Fail> {
    let raising = Raising { free: 1, by: 5 };
    let made = con_raised(rt.alloc(), &raising, &row(rt.alloc())?)?;
    assert_eq!(rt; last(&made), Some((6, -2)));
    Ok(())
}

/// The row where both variables stand for V7.
fn under_one(alloc: Global) -> Result<Option<Con>, Fail> {
    let terms = two(alloc, Term::Var(7), Term::Var(7))?;
    let row = row(alloc)?;
    Ok(determined(alloc, &ClauseValues::Listed(&terms), &row)?)
}

/// Two variables that stand for one are added.
#[test]
fn a_row_under_terms(rt: HostRuntime) -> Result<(), Fail> {
    let made = under_one(rt.alloc())?;
    assert_eq!(rt; made.as_ref().and_then(last), Some((7, -1)));
    Ok(())
}
