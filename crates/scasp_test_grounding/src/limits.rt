//! How many instances are left over the numbers from 0 on, or why there is no grounding.
use crate::texts::{numbers, read};
use scasp_ground::{GroundErr, ground};
use scasp_syntax::Program;
use scasp_tables::Domain;
use std::alloc::Global;
use std::hash::RandomState;
use std::test::Fail;

/// A program, how many numbers there are, and what comes of it.
struct Row {
    program: &'static str,
    members: u64,
    outcome: Result<usize, GroundErr>,
}

const LARGE: [Row; 4] = [
    Row {
        program: "p(X) :- X #< 3.",
        members: 1_000_000,
        outcome: Ok(3),
    },
    Row {
        program: "p(X) :- X #< 3.",
        members: 1_000_001,
        outcome: Err(GroundErr::TooLarge),
    },
    Row {
        program: "p(X) :- X #< 3. q(X) :- X #< 2.",
        members: 500_000,
        outcome: Ok(5),
    },
    Row {
        program: "p(X) :- X #< 3. q(X) :- X #< 2.",
        members: 500_001,
        outcome: Err(GroundErr::TooLarge),
    },
];

const OVERFLOWS: [Row; 4] = [
    Row {
        program: "p(X) :- 170141183460469231731687303715884105727*X #> 1.",
        members: 2,
        outcome: Ok(1),
    },
    Row {
        program: "p(X) :- 170141183460469231731687303715884105727*X #> 1, X #> 5.",
        members: 3,
        outcome: Err(GroundErr::Overflow),
    },
    Row {
        program: "p(X) :- X #> 5, 170141183460469231731687303715884105727*X #> 1.",
        members: 3,
        outcome: Ok(0),
    },
    // 32 * 32 * 32 * 32 instances
    Row {
        program: "p(A,B,C,D) :- 170141183460469231731687303715884105727*A #> 1.",
        members: 32,
        outcome: Err(GroundErr::TooLarge),
    },
];

fn count(alloc: Global, program: &Program, domain: &Domain) -> Result<usize, GroundErr> {
    let made = ground(alloc, program, domain)?;
    Ok(made.len())
}

fn comes_to(alloc: Global, row: &Row, keys: RandomState) -> Result<bool, Fail> {
    let (program, _names) = read(alloc, row.program, keys)?;
    let domain = numbers(alloc, row.members, keys)?;
    Ok(count(alloc, &program, &domain) == row.outcome)
}

#[test]
fn counts_instances(rt: HostRuntime) -> Result<(), Fail> {
    let keys = RandomState::new(&rt)?;
    for row in &LARGE {
        assert!(rt; comes_to(rt.alloc(), row, keys)?);
    }
    Ok(())
}

#[test]
fn tells_overflows(rt: HostRuntime) -> Result<(), Fail> {
    let keys = RandomState::new(&rt)?;
    for row in &OVERFLOWS {
        assert!(rt; comes_to(rt.alloc(), row, keys)?);
    }
    Ok(())
}
