//! Contexts of lines, pairs of lines and what shows them apart, by the numbers of the lines; what stands beside lines.
use crate::worked::made::{con, program};
use crate::worked::number_samples::DENIAL;
use crate::worked::samples::{BOTH, CLOSED_ONLY, FACT, FORALL, SHAPE_OR_VALUE, THROUGH_NEGATION};
use crate::worked::trees::certificate;
use crate::worked::written::Told::{Equal, HasNotShape, IsNot};
use crate::worked::written::Written::{A, B, F, V};
use crate::worked::written::{Sample, Told};
use scasp_cert::{flat, lines};
use scasp_checker::{CheckErr, Reason, Refusal, check};
use scasp_checker_answer::same_con;
use scasp_disjoint::{ApartErr, apart, context, pair};
use scasp_hint::HintFault;
use scasp_name::Memory;
use scasp_skeleton::skeleton;
use scasp_syntax::{Cons, Hint};
use std::alloc::Global;
use std::hash::RandomState;
use std::process::Abort;
use std::test::Fail;

/// A sample, the number of a line, and its context, if there is such a line.
const CONTEXTS: &[(Sample, u64, Option<&[Told]>)] = &[
    (FACT, 0, None),
    (FACT, 1, Some(&[])),
    (FACT, 2, None),
    (
        SHAPE_OR_VALUE,
        4,
        Some(&[HasNotShape(0), Equal(V(0), F(1)), Equal(V(1), A)]),
    ),
];

/// A sample, the numbers of two lines, and the list of their literals, if they are a pair.
const PAIRS: &[(Sample, u64, u64, Option<&[Told]>)] = &[
    (SHAPE_OR_VALUE, 1, 2, None),
    (THROUGH_NEGATION, 1, 1, None),
    (FORALL, 6, 13, None),
    (
        FORALL,
        12,
        6,
        Some(&[
            IsNot(0, A),
            Equal(V(0), B),
            IsNot(1, A),
            IsNot(1, B),
            Equal(B, V(1)),
        ]),
    ),
    (
        FORALL,
        6,
        12,
        Some(&[
            IsNot(0, A),
            IsNot(0, B),
            IsNot(1, A),
            Equal(V(1), B),
            Equal(V(0), B),
        ]),
    ),
];

/// A sample, the numbers of two lines, and whether their terms show them apart.
const APART: &[(Sample, u64, u64, Result<(), ApartErr>)] = &[
    (SHAPE_OR_VALUE, 1, 2, Err(ApartErr::Wrong)),
    (FORALL, 12, 6, Ok(())),
    (FORALL, 6, 15, Ok(())),
    (BOTH, 5, 16, Err(ApartErr::Fault(HintFault::NotReached))),
    (BOTH, 5, 99, Err(ApartErr::Wrong)),
];

/// A sample, how many lines it has, and whether it is flat.
const COUNTS: &[(Sample, u64, bool)] = &[
    (FACT, 1, true),
    (FORALL, 16, true),
    (CLOSED_ONLY, 5, false),
    (DENIAL, 13, true),
];

/// Whether the lists are the same.
fn same_cons(alloc: Global, made: &Cons, expected: &[Told]) -> Result<bool, Memory> {
    if made.len() != expected.len() {
        return Ok(false);
    }
    for (place, told) in expected.iter().enumerate() {
        let Some(first) = made.get(place) else {
            return Ok(false);
        };
        if !same_con(alloc, first, &con(alloc, *told)?)? {
            return Ok(false);
        }
    }
    Ok(true)
}

pub fn same_list(
    alloc: Global,
    made: Option<Cons>,
    expected: Option<&[Told]>,
) -> Result<bool, Memory> {
    match (made, expected) {
        (Some(list), Some(told)) => same_cons(alloc, &list, told),
        (None, None) => Ok(true),
        (Some(_), None) | (None, Some(_)) => Ok(false),
    }
}

fn context_is(
    alloc: Global,
    keys: RandomState,
    sample: &Sample,
    line: u64,
    expected: Option<&[Told]>,
) -> Result<bool, Memory> {
    let program = program(alloc, keys, sample.text)?;
    let cert = certificate(alloc, sample)?;
    same_list(alloc, context(alloc, &program, &cert, line)?, expected)
}

fn pair_is(
    alloc: Global,
    keys: RandomState,
    sample: &Sample,
    first: u64,
    second: u64,
    expected: Option<&[Told]>,
) -> Result<bool, Memory> {
    let program = program(alloc, keys, sample.text)?;
    let cert = certificate(alloc, sample)?;
    same_list(
        alloc,
        pair(alloc, &program, &cert, first, second)?,
        expected,
    )
}

fn shown_apart(
    alloc: Global,
    keys: RandomState,
    sample: &Sample,
    first: u64,
    second: u64,
) -> Result<Result<(), ApartErr>, Memory> {
    let program = program(alloc, keys, sample.text)?;
    let cert = certificate(alloc, sample)?;
    Ok(apart(alloc, &program, &cert, first, second, &Hint::Terms))
}

#[test]
fn lines_have_their_contexts(rt: HostRuntime) -> Result<(), Fail> {
    let keys = RandomState::new(&rt)?;
    for (sample, line, expected) in CONTEXTS {
        assert!(rt; context_is(rt.alloc(), keys, sample, *line, *expected)?);
    }
    Ok(())
}

#[test]
fn pairs_have_their_lists(rt: HostRuntime) -> Result<(), Fail> {
    let keys = RandomState::new(&rt)?;
    for (sample, first, second, expected) in PAIRS {
        assert!(rt; pair_is(rt.alloc(), keys, sample, *first, *second, *expected)?);
    }
    Ok(())
}

#[test]
fn lines_are_shown_apart(rt: HostRuntime) -> Result<(), Fail> {
    let keys = RandomState::new(&rt)?;
    for (sample, first, second, expected) in APART {
        assert_eq!(rt;
            shown_apart(rt.alloc(), keys, sample, *first, *second)?,
            *expected
        );
    }
    Ok(())
}

/// How many lines the sample's certificate has, and whether it is flat.
fn counted(alloc: Global, sample: &Sample) -> Result<(u64, bool), Memory> {
    let cert = certificate(alloc, sample)?;
    Ok((lines(alloc, &cert)?, flat(alloc, &cert)?))
}

#[test]
fn lines_are_counted(rt: HostRuntime) -> Result<(), Fail> {
    for (sample, lines, flat) in COUNTS {
        assert_eq!(rt; counted(rt.alloc(), sample)?, (*lines, *flat));
    }
    Ok(())
}

/// What the checker says of the sample's skeleton, which has no steps.
fn skeleton_is_refused(
    alloc: Global,
    keys: RandomState,
    sample: &Sample,
) -> Result<(u64, Option<CheckErr>), Memory> {
    let program = program(alloc, keys, sample.text)?;
    let cert = certificate(alloc, sample)?;
    let bare = skeleton(alloc, &cert)?;
    Ok((lines(alloc, &bare)?, check(alloc, &program, &bare).err()))
}

#[test]
fn skeletons_have_no_steps(rt: HostRuntime) -> Result<(), Fail> {
    let refusal = Refusal {
        at: 13,
        reason: Reason::HintNotReached,
    };
    let expected = (13, Some(CheckErr::Refused(refusal)));
    let keys = RandomState::new(&rt)?;
    assert_eq!(rt; skeleton_is_refused(rt.alloc(), keys, &DENIAL)?, expected);
    Ok(())
}
