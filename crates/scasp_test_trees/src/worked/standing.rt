//! What stands at each line of worked certificates: what is due there, and its context, as the rules give them.
use crate::worked::contexts::same_list;
use crate::worked::made::{applied, con, program};
use crate::worked::number_samples::{ABOVE, AT_LEAST, AT_MOST, DENIAL};
use crate::worked::samples::{CLOSED_ONLY, DEFAULT, FORALL};
use crate::worked::trees::certificate;
use crate::worked::written::Told::{Compares, Equal, IsNot, NoNumber, Number};
use crate::worked::written::Written::{A, B, F, V};
use crate::worked::written::{Sample, Told, Written};
use scasp_cert::Cert;
use scasp_checker_answer::same_con;
use scasp_disjoint::context;
use scasp_lines_places::Due;
use scasp_lines_walk::{Line, Lines, Part};
use scasp_name::Memory;
use scasp_syntax::{Lit, Program, same_lit};
use scasp_test_samples::{Name, P, Q, R, S};
use std::alloc::Global;
use std::hash::RandomState;
use std::test::Fail;

/// What a line is due for: a literal, true or false; a constraint; nothing, since it is no line of a node.
#[derive(Clone, Copy)]
enum Owed {
    Goal(bool, Name, &'static [Written]),
    Fact(Told),
    Nothing,
}

use Owed::{Fact, Goal, Nothing};

/// What a line is due for, and its context.
type Standing = (Owed, &'static [Told]);

const NOT_A: &[Told] = &[IsNot(0, A)];

const NOT_A_NOT_B: &[Told] = &[IsNot(0, A), IsNot(0, B)];

const IS_A: &[Told] = &[Equal(V(0), A)];

const IS_B: &[Told] = &[IsNot(0, A), Equal(V(0), B)];

const NUMBER: &[Told] = &[Number(V(0))];

const NO_NUMBER: &[Told] = &[NoNumber(V(0))];

const SMALL: &[Told] = &[Number(V(0)), Compares(AT_MOST)];

const LARGE: &[Told] = &[Number(V(0)), Compares(ABOVE)];

/// A sample, and what stands at each of its lines.
const STANDING: &[(Sample, &[Standing])] = &[
    (
        FORALL,
        &[
            (Goal(false, P, &[]), &[]),
            (Nothing, &[]),
            (Nothing, &[]),
            (Nothing, NOT_A),
            (Nothing, NOT_A_NOT_B),
            (Goal(false, Q, &[V(0)]), NOT_A_NOT_B),
            (Nothing, NOT_A_NOT_B),
            (Nothing, &[IsNot(0, A), IsNot(0, B), Equal(V(0), A)]),
            (Nothing, NOT_A_NOT_B),
            (Nothing, &[IsNot(0, A), IsNot(0, B), Equal(V(0), B)]),
            (Nothing, IS_B),
            (Goal(true, Q, &[B]), IS_B),
            (Goal(true, R, &[B]), IS_B),
            (Nothing, IS_A),
            (Goal(true, Q, &[A]), IS_A),
            (Goal(true, R, &[A]), IS_A),
        ],
    ),
    (
        DENIAL,
        &[
            (Goal(true, Q, &[]), &[]),
            (Nothing, &[]),
            (Nothing, &[]),
            (Nothing, NO_NUMBER),
            (Fact(NoNumber(V(0))), NO_NUMBER),
            (Nothing, NUMBER),
            (Nothing, SMALL),
            (Fact(Number(V(0))), SMALL),
            (Fact(Compares(AT_MOST)), SMALL),
            (Nothing, LARGE),
            (Fact(Number(V(0))), LARGE),
            (Fact(Compares(ABOVE)), LARGE),
            (Fact(Compares(AT_LEAST)), LARGE),
        ],
    ),
    (
        CLOSED_ONLY,
        &[
            (Goal(false, P, &[]), &[]),
            (Nothing, &[]),
            (Nothing, &[]),
            (Goal(true, R, &[V(0)]), &[]),
            (Goal(true, S, &[F(0)]), &[]),
        ],
    ),
    (
        DEFAULT,
        &[
            (Goal(true, P, &[V(0)]), NOT_A),
            (Goal(false, Q, &[V(0)]), NOT_A),
            (Nothing, NOT_A),
            (Nothing, &[IsNot(0, A), Equal(V(0), A)]),
        ],
    ),
];

/// Whether the literal is this one.
fn is_goal(
    alloc: Global,
    lit: &Lit,
    positive: bool,
    name: Name,
    args: &[Written],
) -> Result<bool, Memory> {
    let atom = applied(alloc, name, args)?;
    same_lit(alloc, lit, &Lit { positive, atom })
}

fn is_due(alloc: Global, due: &Due, owed: Owed) -> Result<bool, Memory> {
    match (due, owed) {
        (Due::Goal(lit), Goal(positive, name, args)) => is_goal(alloc, lit, positive, name, args),
        (Due::Fact(Some(constraint)), Fact(told)) => {
            same_con(alloc, constraint, &con(alloc, told)?)
        }
        (Due::Goal(_) | Due::Fact(_) | Due::Nothing, Goal(..) | Fact(_) | Nothing) => Ok(false),
    }
}

/// Whether this is due for the part of a certificate.
fn is_part_due(alloc: Global, part: &Part, owed: Owed) -> Result<bool, Memory> {
    match part {
        Part::Node { due, .. } => is_due(alloc, due, owed),
        Part::Rule { .. } | Part::Check { .. } | Part::Case { .. } => Ok(matches!(owed, Nothing)),
    }
}

fn stands(
    alloc: Global,
    program: &Program,
    cert: &Cert,
    line: &Line,
    expected: Standing,
) -> Result<bool, Memory> {
    if !is_part_due(alloc, &line.part, expected.0)? {
        return Ok(false);
    }
    let made = context(alloc, program, cert, line.at)?;
    same_list(alloc, made, Some(expected.1))
}

/// Whether this stands at the lines of the certificate, one after the other.
fn all_stand(
    alloc: Global,
    program: &Program,
    cert: &Cert,
    expected: &[Standing],
) -> Result<bool, Memory> {
    let mut lines = Lines::of(alloc, program, cert)?;
    for standing in expected {
        let Some(line) = lines.next(alloc)? else {
            return Ok(false);
        };
        if !stands(alloc, program, cert, &line, *standing)? {
            return Ok(false);
        }
    }
    Ok(lines.next(alloc)?.is_none())
}

fn sample_stands(
    alloc: Global,
    keys: RandomState,
    sample: &Sample,
    expected: &[Standing],
) -> Result<bool, Memory> {
    let program = program(alloc, keys, sample.text)?;
    let cert = certificate(alloc, sample)?;
    all_stand(alloc, &program, &cert, expected)
}

#[test]
fn lines_have_their_dues_and_contexts(rt: HostRuntime) -> Result<(), Fail> {
    let keys = RandomState::new(&rt)?;
    for (sample, expected) in STANDING {
        assert!(rt; sample_stands(rt.alloc(), keys, sample, expected)?);
    }
    Ok(())
}
