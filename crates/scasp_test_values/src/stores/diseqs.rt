//! Disequations: a table of steps, with nested marks and terms of great depth.
use crate::stores::shapes::{Shape, is_shape, nested, term};
use scasp_diseq::{DiseqMark, Diseqs};
use scasp_name::{Memory, NameId};
use scasp_syntax::{Con, Term};
use std::alloc::Global;
use std::process::Abort;
use std::test::Fail;

/// A disequation.
type Pair = (Shape, Shape);

/// A call, or what a call answers.
enum Step {
    /// The variable is not this name with so many arguments.
    Exclude(u64, u64, u64),
    Post(Pair),
    /// The first variable differs from a name around a name and so on, so many of them, around the second one.
    PostNested(u64, u64, u64),
    /// So many times a mark, a shape and a disequation, of ten variables in turn.
    Nest(u64),
    /// The marks are numbered from 0.
    Mark,
    Undo(usize),
    /// Undoes to each mark, the latest first.
    UndoEach,
    Excludes(u64, u64, u64, bool),
    /// The disequations that are woken, in order.
    Wakes(u64, &'static [Pair]),
    /// How many disequations are woken.
    WakesMany(u64, usize),
}

const A: u64 = 5;

const B: u64 = 6;

/// x and y differ, and so on.
const X_Y: Pair = (Shape::V(0), Shape::V(1));

const X_Z: Pair = (Shape::V(0), Shape::V(2));

const Y_Z: Pair = (Shape::V(1), Shape::V(2));

const X_A: Pair = (Shape::V(0), Shape::F(A, &[]));

/// f(g(V3),V4) and f(a,V5) differ.
const DEEP: Pair = (
    Shape::F(7, &[Shape::F(8, &[Shape::V(3)]), Shape::V(4)]),
    Shape::F(7, &[Shape::F(A, &[]), Shape::V(5)]),
);

/// x and f(x,f(x,x)) differ.
const X_TWICE: Pair = (
    Shape::V(0),
    Shape::F(7, &[Shape::V(0), Shape::F(7, &[Shape::V(0), Shape::V(0)])]),
);

const FAR: Pair = (Shape::V(u64::MAX), Shape::V(1));

const ROWS: [&[Step]; 12] = [
    &[
        Step::Exclude(0, A, 0),
        Step::Post(X_Y),
        Step::Wakes(1, &[X_Y]),
        Step::Wakes(0, &[X_Y]),
        Step::Wakes(2, &[]),
        Step::Excludes(0, A, 0, true),
    ],
    // other arities, names and variables
    &[
        Step::Excludes(0, A, 1, false),
        Step::Exclude(0, A, 1),
        Step::Exclude(1, B, 1),
        Step::Exclude(0, B, 2),
        Step::Excludes(0, A, 1, true),
        Step::Excludes(0, A, 0, false),
        Step::Excludes(0, A, 2, false),
        Step::Excludes(0, B, 1, false),
        Step::Excludes(1, A, 1, false),
        Step::Excludes(1, B, 1, true),
        Step::Wakes(0, &[]),
    ],
    // exclusions undone
    &[
        Step::Exclude(0, A, 0),
        Step::Mark,
        Step::Exclude(0, B, 0),
        Step::Exclude(1, A, 0),
        Step::Excludes(0, B, 0, true),
        Step::Undo(0),
        Step::Excludes(0, B, 0, false),
        Step::Excludes(1, A, 0, false),
        Step::Excludes(0, A, 0, true),
    ],
    // the order, with a shape between
    &[
        Step::Post(X_Y),
        Step::Post(Y_Z),
        Step::Exclude(0, A, 0),
        Step::Post(X_A),
        Step::Post(X_Z),
        Step::Post(X_Y),
        Step::Wakes(0, &[X_Y, X_A, X_Z, X_Y]),
        Step::Wakes(1, &[X_Y, Y_Z, X_Y]),
        Step::Wakes(2, &[Y_Z, X_Z]),
    ],
    // inside terms, of either side
    &[
        Step::Post(DEEP),
        Step::Wakes(3, &[DEEP]),
        Step::Wakes(4, &[DEEP]),
        Step::Wakes(5, &[DEEP]),
        Step::Wakes(7, &[]),
        Step::Wakes(8, &[]),
    ],
    // both sides mention x, at several depths
    &[
        Step::Post(X_TWICE),
        Step::Post(X_A),
        Step::Wakes(0, &[X_TWICE, X_A]),
    ],
    // one mark undone to twice
    &[
        Step::Post(X_Y),
        Step::Mark,
        Step::Post(X_Z),
        Step::Undo(0),
        Step::Wakes(0, &[X_Y]),
        Step::Wakes(2, &[]),
        Step::Post(Y_Z),
        Step::Exclude(0, A, 0),
        Step::Undo(0),
        Step::Wakes(1, &[X_Y]),
        Step::Wakes(2, &[]),
        Step::Excludes(0, A, 0, false),
    ],
    // marks in one another, undone at once, and one that is ahead
    &[
        Step::Mark,
        Step::Post(X_Y),
        Step::Mark,
        Step::Post(X_Z),
        Step::Mark,
        Step::Post(X_TWICE),
        Step::Undo(1),
        Step::Wakes(0, &[X_Y]),
        Step::Undo(2),
        Step::Wakes(0, &[X_Y]),
        Step::Post(X_A),
        Step::Post(DEEP),
        Step::Undo(2),
        Step::Wakes(0, &[X_Y, X_A]),
        Step::Wakes(3, &[]),
        Step::Undo(0),
        Step::Wakes(0, &[]),
    ],
    // a disequation without variables, and one that is posted twice
    &[
        Step::Post((Shape::F(A, &[]), Shape::F(B, &[]))),
        Step::Wakes(A, &[]),
        Step::Post(X_A),
        Step::Mark,
        Step::Post(X_A),
        Step::Wakes(0, &[X_A, X_A]),
        Step::Undo(0),
        Step::Wakes(0, &[X_A]),
    ],
    &[
        Step::Post(FAR),
        Step::Exclude(u64::MAX, u64::MAX, u64::MAX),
        Step::Wakes(u64::MAX, &[FAR]),
        Step::Excludes(u64::MAX, u64::MAX, u64::MAX, true),
        Step::Excludes(u64::MAX, u64::MAX, 0, false),
    ],
    // a deep term
    &[
        Step::Mark,
        Step::PostNested(0, 1, 50_000),
        Step::WakesMany(1, 1),
        Step::WakesMany(0, 1),
        Step::WakesMany(2, 0),
        Step::Undo(0),
        Step::WakesMany(1, 0),
    ],
    // nested marks, undone in steps and at once
    &[
        Step::Mark,
        Step::Nest(1_000),
        Step::WakesMany(3, 100),
        Step::Excludes(3, A, 993, true),
        Step::UndoEach,
        Step::WakesMany(3, 0),
        Step::Excludes(3, A, 3, false),
        Step::Nest(1_000),
        Step::WakesMany(999, 1),
        Step::Undo(500),
        Step::WakesMany(3, 50),
        Step::Excludes(8, A, 498, true),
        Step::Excludes(9, A, 499, false),
        Step::Undo(0),
        Step::WakesMany(9, 0),
    ],
];

fn post(alloc: Global, diseqs: &mut Diseqs, pair: &Pair) -> Result<(), Memory> {
    let left = term(alloc, &pair.0)?;
    diseqs.post(&left, &term(alloc, &pair.1)?)
}

fn is_pair(alloc: Global, con: &Con, pair: &Pair) -> Result<bool, Memory> {
    match con {
        Con::Neq(left, right) => are_pair(alloc, left, right, pair),
        Con::NotShape(_, _, _) => Ok(false),
        Con::Eq(_, _) => Ok(false),
        Con::Num(_) => Ok(false),
        Con::NotNum(_) => Ok(false),
        Con::Row(_) => Ok(false),
    }
}

fn are_pair(alloc: Global, left: &Term, right: &Term, pair: &Pair) -> Result<bool, Memory> {
    let first = is_shape(alloc, left, &pair.0)?;
    let second = is_shape(alloc, right, &pair.1)?;
    Ok(first && second)
}

/// The variable wakes these disequations, in this order.
fn test_woken(
    rt: &impl Abort,
    alloc: Global,
    diseqs: &Diseqs,
    x: u64,
    pairs: &[Pair],
) -> Result<(), Memory> {
    let woken = diseqs.wake(x)?;
    assert_eq!(rt; woken.len(), pairs.len());
    for (con, pair) in woken.as_slice().iter().zip(pairs) {
        assert!(rt; is_pair(alloc, con, pair)?);
    }
    Ok(())
}

fn post_nested(
    alloc: Global,
    diseqs: &mut Diseqs,
    x: u64,
    y: u64,
    count: u64,
) -> Result<(), Memory> {
    let right = nested(alloc, y, count)?;
    diseqs.post(&Term::Var(x), &right)
}

fn nest(trial: &mut Trial, count: u64) -> Result<(), Memory> {
    for number in 0..count {
        trial.marks.push(trial.diseqs.mark())?;
        trial.diseqs.exclude(number % 10, NameId::new(A), number)?;
        trial
            .diseqs
            .post(&Term::Var(number % 10), &Term::Var(number))?;
    }
    Ok(())
}

fn mark(trial: &mut Trial) -> Result<(), Memory> {
    trial.marks.push(trial.diseqs.mark())?;
    Ok(())
}

fn undo(rt: &impl Abort, trial: &mut Trial, number: usize) {
    assert!(rt; number < trial.marks.len());
    trial.diseqs.undo(trial.marks[number]);
}

fn undo_each(rt: &impl Abort, trial: &mut Trial) {
    let count = trial.marks.len();
    for place in 0..count {
        let number = count - 1 - place;
        undo(rt, trial, number);
        assert!(rt; number < trial.marks.len());
        assert!(rt; trial.diseqs.mark() == trial.marks[number]);
    }
}

fn test_excluded(rt: &impl Abort, diseqs: &Diseqs, x: u64, name: u64, arity: u64, want: bool) {
    assert!(rt; diseqs.excludes(x, NameId::new(name), arity) == want);
}

fn test_many(rt: &impl Abort, diseqs: &Diseqs, x: u64, want: usize) -> Result<(), Memory> {
    let woken = diseqs.wake(x)?;
    assert_eq!(rt; woken.len(), want);
    Ok(())
}

/// Disequations, and marks of them.
#[derive(Drop)]
struct Trial {
    diseqs: Diseqs,
    marks: Vec<DiseqMark>,
    alloc: Global,
}

fn take(rt: &impl Abort, trial: &mut Trial, step: &Step) -> Result<(), Memory> {
    match step {
        Step::Exclude(x, name, arity) => trial.diseqs.exclude(*x, NameId::new(*name), *arity)?,
        Step::Post(pair) => post(trial.alloc, &mut trial.diseqs, pair)?,
        Step::PostNested(x, y, count) => post_nested(
            trial.alloc,
            &mut trial.diseqs,
            *x,
            *y,
            *count,
        )?,
        Step::Nest(count) => nest(trial, *count)?,
        Step::Mark => mark(trial)?,
        Step::Undo(number) => undo(rt, trial, *number),
        Step::UndoEach => undo_each(rt, trial),
        Step::Excludes(x, name, arity, want) => test_excluded(
            rt,
            &trial.diseqs,
            *x,
            *name,
            *arity,
            *want,
        ),
        Step::Wakes(x, pairs) => test_woken(rt, trial.alloc, &trial.diseqs, *x, pairs)?,
        Step::WakesMany(x, want) => test_many(rt, &trial.diseqs, *x, *want)?,
    }
    Ok(())
}

fn test_row(rt: &impl Abort, alloc: Global, steps: &[Step]) -> Result<(), Memory> {
    let mut trial = Trial {
        diseqs: Diseqs::new(alloc),
        marks: Vec::new(alloc),
        alloc,
    };
    for step in steps {
        take(rt, &mut trial, step)?;
    }
    Ok(())
}

#[test]
fn rows(rt: HostRuntime) -> Result<(), Fail> {
    for steps in &ROWS {
        test_row(&rt, rt.alloc(), steps)?;
    }
    Ok(())
}
