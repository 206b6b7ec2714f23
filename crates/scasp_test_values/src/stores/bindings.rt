//! Bindings: a table of steps, with long chains, terms that share others, terms of great depth, and nested marks.
ghost use Rattle.std.specs.Prelude.{◌<◌};

use crate::stores::shapes::{Shape, is_shape, nested, term};
use scasp_bind::{BindMark, Bindings, Sort};
use scasp_name::{Memory, NameId};
use scasp_syntax::{Term, Terms, same};
use std::alloc::Global;
use std::process::Abort;
use std::test::Fail;

/// A call, or many.
enum Step {
    /// So many variables of this kind and depth.
    Fresh(u64, Sort, u64),
    Bind(u64, Shape),
    /// The variable is bound to a name around a name and so on, so many of them, around the other variable.
    BindNested(u64, u64, u64),
    /// Each of so many variables, from the first one on, is bound to the next one.
    Chain(u64),
    /// The same from the last one on.
    ChainBack(u64),
    /// Each of so many variables, from the last one on, is bound to a name with the next variable twice.
    Double(u64),
    Unbind(u64),
    Lower(u64, u64),
    /// The marks are numbered from 0.
    Mark,
    /// The same as `Chain`, with a mark before each binding.
    MarkedChain(u64),
    Undo(usize),
    /// Undoes to each mark, the latest first.
    UndoEach,
    Ask(Question),
}

/// What is asked, and the answer.
enum Question {
    /// What the variable resolves to.
    Gives(u64, Shape),
    GivesNested(u64, u64, u64),
    /// A name with so many variables, from the first one on, resolves to the name with the next one in the place of each.
    GivesEach(u64),
    /// Whether the first variable stands in what the second one resolves to.
    Occurs(u64, u64, bool),
    Depth(u64, u64),
    Kind(u64, Sort),
    IsBound(u64, bool),
    Count(u64),
}

const E: Sort = Sort::Existential;

const U: Sort = Sort::Universal;

const ROWS: [&[Step]; 7] = [
    // bound inside a term, and undone
    &[
        Step::Fresh(2, E, 2),
        Step::Mark,
        Step::Bind(0, Shape::F(6, &[Shape::V(1)])),
        Step::Ask(Question::Gives(0, Shape::F(6, &[Shape::V(1)]))),
        Step::Ask(Question::IsBound(0, true)),
        Step::Undo(0),
        Step::Ask(Question::Gives(0, Shape::V(0))),
        Step::Ask(Question::IsBound(0, false)),
    ],
    // unbound, and undone
    &[
        Step::Fresh(1, E, 2),
        Step::Bind(0, Shape::F(5, &[])),
        Step::Mark,
        Step::Unbind(0),
        Step::Ask(Question::Gives(0, Shape::V(0))),
        Step::Undo(0),
        Step::Ask(Question::Gives(0, Shape::F(5, &[]))),
    ],
    // unbound in the middle, bound to something else, and undone
    &[
        Step::Fresh(3, E, 2),
        Step::Bind(0, Shape::V(1)),
        Step::Bind(1, Shape::V(2)),
        Step::Bind(2, Shape::F(5, &[])),
        Step::Mark,
        Step::Unbind(1),
        Step::Ask(Question::Gives(0, Shape::V(1))),
        Step::Ask(Question::Gives(2, Shape::F(5, &[]))),
        Step::Bind(1, Shape::F(6, &[Shape::V(2)])),
        Step::Ask(Question::Gives(0, Shape::F(6, &[Shape::F(5, &[])]))),
        Step::Undo(0),
        Step::Ask(Question::Gives(0, Shape::F(5, &[]))),
    ],
    // depths lowered through a term, of existentials alone, and given back
    &[
        Step::Fresh(1, E, 2),
        Step::Fresh(1, E, 4),
        Step::Fresh(1, U, 4),
        Step::Fresh(1, E, 1),
        Step::Mark,
        Step::Bind(
            0,
            Shape::F(6, &[Shape::V(1), Shape::F(7, &[Shape::V(2), Shape::V(3)])]),
        ),
        Step::Ask(Question::Depth(0, 2)),
        Step::Ask(Question::Depth(1, 2)),
        Step::Ask(Question::Depth(2, 4)),
        Step::Ask(Question::Depth(3, 1)),
        Step::Undo(0),
        Step::Ask(Question::Depth(1, 4)),
    ],
    // depths of variables that a bound variable leads to stay; an unbound variable keeps its lower depth
    &[
        Step::Fresh(1, E, 1),
        Step::Fresh(2, E, 5),
        Step::Bind(1, Shape::F(6, &[Shape::V(2)])),
        Step::Bind(0, Shape::V(1)),
        Step::Ask(Question::Depth(1, 1)),
        Step::Ask(Question::Depth(2, 5)),
        Step::Unbind(0),
        Step::Ask(Question::Depth(1, 1)),
    ],
    // lowered by itself, where the depth is greater, and given back
    &[
        Step::Fresh(1, U, 7),
        Step::Mark,
        Step::Lower(0, 9),
        Step::Ask(Question::Depth(0, 7)),
        Step::Lower(0, 3),
        Step::Ask(Question::Depth(0, 3)),
        Step::Ask(Question::Kind(0, U)),
        Step::Undo(0),
        Step::Ask(Question::Depth(0, 7)),
        Step::Lower(0, 0),
        Step::Ask(Question::Depth(0, 0)),
    ],
    // undone to one mark twice, with other bindings between
    &[
        Step::Fresh(2, E, 2),
        Step::Mark,
        Step::Bind(0, Shape::V(1)),
        Step::Undo(0),
        Step::Bind(1, Shape::F(5, &[])),
        Step::Fresh(1, U, 0),
        Step::Undo(0),
        Step::Ask(Question::Gives(1, Shape::V(1))),
        Step::Ask(Question::Count(2)),
    ],
];

const FURTHER_ROWS: [&[Step]; 7] = [
    // a mark that is ahead
    &[
        Step::Fresh(2, E, 2),
        Step::Mark,
        Step::Bind(0, Shape::V(1)),
        Step::Mark,
        Step::Undo(0),
        Step::Undo(1),
        Step::Ask(Question::Gives(0, Shape::V(0))),
        Step::Bind(1, Shape::V(0)),
        Step::Undo(1),
        Step::Ask(Question::Gives(1, Shape::V(0))),
        Step::Undo(0),
        Step::Ask(Question::Gives(1, Shape::V(1))),
    ],
    // what stands in a term as it resolves
    &[
        Step::Fresh(4, E, 2),
        Step::Bind(0, Shape::F(6, &[Shape::V(1), Shape::V(2)])),
        Step::Bind(2, Shape::F(6, &[Shape::V(3), Shape::F(5, &[])])),
        Step::Ask(Question::Occurs(3, 0, true)),
        Step::Ask(Question::Occurs(1, 0, true)),
        Step::Ask(Question::Occurs(2, 0, false)),
        Step::Ask(Question::Occurs(0, 0, false)),
        Step::Ask(Question::Occurs(3, 3, true)),
        Step::Ask(Question::Occurs(1, 3, false)),
    ],
    // a variable that stands behind one that was searched before
    &[
        Step::Fresh(4, E, 2),
        Step::Bind(1, Shape::F(6, &[Shape::V(3)])),
        Step::Bind(
            0,
            Shape::F(6, &[Shape::V(1), Shape::V(1), Shape::V(2), Shape::V(1)]),
        ),
        Step::Ask(Question::Occurs(2, 0, true)),
        Step::Ask(Question::Occurs(3, 0, true)),
        Step::Ask(Question::Occurs(1, 0, false)),
    ],
    // a chain to a name, from its end on
    &[
        Step::Fresh(502, E, 2),
        Step::Bind(500, Shape::F(6, &[Shape::V(501)])),
        Step::ChainBack(500),
        Step::Ask(Question::Gives(0, Shape::F(6, &[Shape::V(501)]))),
        Step::Ask(Question::Occurs(501, 0, true)),
        Step::Ask(Question::Occurs(500, 0, false)),
    ],
    // terms that share others: as many as 2 to the 64 when written out
    &[
        Step::Fresh(66, E, 2),
        Step::Double(64),
        Step::Ask(Question::Occurs(64, 0, true)),
        Step::Ask(Question::Occurs(65, 0, false)),
        Step::Bind(65, Shape::V(0)),
        Step::Ask(Question::Occurs(64, 65, true)),
    ],
    // few enough to be written out
    &[
        Step::Fresh(3, E, 2),
        Step::Double(2),
        Step::Ask(Question::Gives(
            0,
            Shape::F(
                6,
                &[
                    Shape::F(6, &[Shape::V(2), Shape::V(2)]),
                    Shape::F(6, &[Shape::V(2), Shape::V(2)]),
                ],
            ),
        )),
    ],
    // nested marks, undone in steps and at once
    &[
        Step::Fresh(1_001, E, 2),
        Step::Mark,
        Step::MarkedChain(1_000),
        Step::Ask(Question::Gives(0, Shape::V(1_000))),
        Step::UndoEach,
        Step::Ask(Question::Gives(0, Shape::V(0))),
        Step::Ask(Question::Gives(999, Shape::V(999))),
        Step::Chain(1_000),
        Step::Undo(0),
        Step::Ask(Question::Gives(0, Shape::V(0))),
        Step::Ask(Question::Count(1_001)),
    ],
];

/// A long chain; from all its parts together it is passed once.
const LONG_CHAIN: &[Step] = &[
    Step::Fresh(100_001, E, 2),
    Step::Mark,
    Step::Chain(100_000),
    Step::Ask(Question::Gives(0, Shape::V(100_000))),
    Step::Ask(Question::GivesEach(100_000)),
    Step::Ask(Question::Occurs(100_000, 0, true)),
    Step::Ask(Question::Occurs(50_000, 0, false)),
    Step::Undo(0),
    Step::Ask(Question::Gives(0, Shape::V(0))),
];

/// A deep term: bound, with depths lowered through it, resolved, searched, undone.
const DEEP_TERM: &[Step] = &[
    Step::Fresh(1, E, 1),
    Step::Fresh(2, E, 3),
    Step::Mark,
    Step::BindNested(0, 1, 50_000),
    Step::Ask(Question::Depth(1, 1)),
    Step::Ask(Question::Depth(2, 3)),
    Step::Bind(1, Shape::V(2)),
    Step::Ask(Question::GivesNested(0, 2, 50_000)),
    Step::Ask(Question::Occurs(2, 0, true)),
    Step::Ask(Question::Occurs(1, 0, false)),
    Step::Undo(0),
    Step::Ask(Question::Gives(0, Shape::V(0))),
    Step::Ask(Question::Depth(1, 3)),
];

/// Bindings, and marks of them.
#[derive(Drop)]
struct Trial {
    bindings: Bindings,
    marks: Vec<BindMark>,
    alloc: Global,
}

fn fresh(trial: &mut Trial, count: u64, sort: Sort, depth: u64) -> Result<(), Memory> {
    for _x in 0..count {
        trial.bindings.fresh(sort, depth)?;
    }
    Ok(())
}

/// Binds the variable, once it was tested that it can be bound.
fn bind(rt: &impl Abort, bindings: &mut Bindings, x: u64, term: &Term) -> Result<(), Memory> {
    assert!(rt; x < bindings.len());
    assert!(rt; !bindings.is_bound(x));
    assert!(rt; bindings.knows(term)?);
    assert!(rt; !bindings.occurs(x, term)?);
    bindings.bind(x, term)
}

/// A name with the variable twice.
fn doubled(alloc: Global, x: u64) -> Result<Term, Memory> {
    let mut args = Terms::new(alloc);
    args.push(Term::Var(x))?;
    args.push(Term::Var(x))?;
    Ok(Term::App(NameId::new(6), args))
}

/// A name with so many variables from this one on, or with this one so many times.
fn row_of(alloc: Global, x: u64, by: u64, count: u64) -> Result<Term, Memory> {
    let mut args = Terms::new(alloc);
    for place in 0..count {
        args.push(Term::Var(x.wrapping_add(place.wrapping_mul(by))))?;
    }
    Ok(Term::App(NameId::new(6), args))
}

fn bind_shape(rt: &impl Abort, trial: &mut Trial, x: u64, shape: &Shape) -> Result<(), Memory> {
    let bound = term(trial.alloc, shape)?;
    bind(rt, &mut trial.bindings, x, &bound)
}

fn bind_nested(
    rt: &impl Abort,
    trial: &mut Trial,
    x: u64,
    y: u64,
    count: u64,
) -> Result<(), Memory> {
    let bound = nested(trial.alloc, y, count)?;
    bind(rt, &mut trial.bindings, x, &bound)
}

fn chain(rt: &impl Abort, bindings: &mut Bindings, count: u64) -> Result<(), Memory> {
    for x in 0..count {
        bind(rt, bindings, x, &Term::Var(x + 1))?;
    }
    Ok(())
}

fn chain_back(rt: &impl Abort, bindings: &mut Bindings, count: u64) -> Result<(), Memory> {
    for place in 0..count {
        let next = count - place;
        bind(rt, bindings, next - 1, &Term::Var(next))?;
    }
    Ok(())
}

fn double(rt: &impl Abort, trial: &mut Trial, count: u64) -> Result<(), Memory> {
    for place in 0..count {
        let next = count - place;
        let bound = doubled(trial.alloc, next)?;
        bind(rt, &mut trial.bindings, next - 1, &bound)?;
    }
    Ok(())
}

fn marked_chain(rt: &impl Abort, trial: &mut Trial, count: u64) -> Result<(), Memory> {
    for x in 0..count {
        trial.marks.push(trial.bindings.mark())?;
        bind(rt, &mut trial.bindings, x, &Term::Var(x + 1))?;
    }
    Ok(())
}

fn unbind(rt: &impl Abort, bindings: &mut Bindings, x: u64) -> Result<(), Memory> {
    assert!(rt; x < bindings.len());
    bindings.unbind(x)
}

fn lower(rt: &impl Abort, bindings: &mut Bindings, x: u64, depth: u64) -> Result<(), Memory> {
    assert!(rt; x < bindings.len());
    bindings.lower(x, depth)
}

fn undo(rt: &impl Abort, trial: &mut Trial, number: usize) {
    assert!(rt; number < trial.marks.len());
    trial.bindings.undo(trial.marks[number]);
}

fn undo_each(rt: &impl Abort, trial: &mut Trial) {
    let count = trial.marks.len();
    for place in 0..count {
        let number = count - 1 - place;
        undo(rt, trial, number);
        assert!(rt; number < trial.marks.len());
        assert!(rt; trial.bindings.mark() == trial.marks[number]);
    }
}

/// What the term resolves to.
fn resolved(rt: &impl Abort, bindings: &Bindings, asked: &Term) -> Result<Term, Memory> {
    assert!(rt; bindings.knows(asked)?);
    bindings.resolve(asked)
}

fn test_gives(rt: &impl Abort, trial: &Trial, x: u64, shape: &Shape) -> Result<(), Memory> {
    let found = resolved(rt, &trial.bindings, &Term::Var(x))?;
    assert!(rt; is_shape(trial.alloc, &found, shape)?);
    Ok(())
}

fn test_same(rt: &impl Abort, trial: &Trial, asked: &Term, want: &Term) -> Result<(), Memory> {
    let found = resolved(rt, &trial.bindings, asked)?;
    assert!(rt; same(trial.alloc, &found, want)?);
    Ok(())
}

fn test_gives_nested(
    rt: &impl Abort,
    trial: &Trial,
    x: u64,
    y: u64,
    count: u64,
) -> Result<(), Memory> {
    let want = nested(trial.alloc, y, count)?;
    test_same(rt, trial, &Term::Var(x), &want)
}

fn test_gives_each(rt: &impl Abort, trial: &Trial, count: u64) -> Result<(), Memory> {
    let asked = row_of(trial.alloc, 0, 1, count)?;
    let want = row_of(trial.alloc, count, 0, count)?;
    test_same(rt, trial, &asked, &want)
}

fn test_occurs(
    rt: &impl Abort,
    bindings: &Bindings,
    x: u64,
    y: u64,
    want: bool,
) -> Result<(), Memory> {
    let asked = Term::Var(y);
    assert!(rt; bindings.knows(&asked)?);
    assert!(rt; bindings.occurs(x, &asked)? == want);
    Ok(())
}

fn test_depth(rt: &impl Abort, bindings: &Bindings, x: u64, want: u64) {
    assert!(rt; x < bindings.len());
    assert_eq!(rt; bindings.depth(x), want);
}

fn test_kind(rt: &impl Abort, bindings: &Bindings, x: u64, want: Sort) {
    assert!(rt; x < bindings.len());
    assert!(rt; bindings.sort(x) == want);
}

fn test_bound(rt: &impl Abort, bindings: &Bindings, x: u64, want: bool) {
    assert!(rt; x < bindings.len());
    assert!(rt; bindings.is_bound(x) == want);
}

fn test_count(rt: &impl Abort, bindings: &Bindings, want: u64) {
    assert_eq!(rt; bindings.len(), want);
}

fn mark(trial: &mut Trial) -> Result<(), Memory> {
    trial.marks.push(trial.bindings.mark())?;
    Ok(())
}

/// Takes a step that changes something; the others ask.
fn take(rt: &impl Abort, trial: &mut Trial, step: &Step) -> Result<(), Memory> {
    match step {
        Step::Fresh(count, sort, depth) => fresh(trial, *count, *sort, *depth)?,
        Step::Bind(x, shape) => bind_shape(rt, trial, *x, shape)?,
        Step::BindNested(x, y, count) => bind_nested(rt, trial, *x, *y, *count)?,
        Step::Chain(count) => chain(rt, &mut trial.bindings, *count)?,
        Step::ChainBack(count) => chain_back(rt, &mut trial.bindings, *count)?,
        Step::Double(count) => double(rt, trial, *count)?,
        Step::Unbind(x) => unbind(rt, &mut trial.bindings, *x)?,
        Step::Lower(x, depth) => lower(rt, &mut trial.bindings, *x, *depth)?,
        Step::Mark => mark(trial)?,
        Step::MarkedChain(count) => marked_chain(rt, trial, *count)?,
        Step::Undo(number) => undo(rt, trial, *number),
        Step::UndoEach => undo_each(rt, trial),
        Step::Ask(question) => ask(rt, trial, question)?,
    }
    Ok(())
}

/// Asks, and compares the answer.
fn ask(rt: &impl Abort, trial: &Trial, question: &Question) -> Result<(), Memory> {
    match question {
        Question::Gives(x, shape) => test_gives(rt, trial, *x, shape)?,
        Question::GivesNested(x, y, count) => test_gives_nested(rt, trial, *x, *y, *count)?,
        Question::GivesEach(count) => test_gives_each(rt, trial, *count)?,
        Question::Occurs(x, y, want) => test_occurs(rt, &trial.bindings, *x, *y, *want)?,
        Question::Depth(x, want) => test_depth(rt, &trial.bindings, *x, *want),
        Question::Kind(x, want) => test_kind(rt, &trial.bindings, *x, *want),
        Question::IsBound(x, want) => test_bound(rt, &trial.bindings, *x, *want),
        Question::Count(want) => test_count(rt, &trial.bindings, *want),
    }
    Ok(())
}

fn test_row(rt: &impl Abort, alloc: Global, steps: &[Step]) -> Result<(), Memory> {
    let mut trial = Trial {
        bindings: Bindings::new(alloc),
        marks: Vec::new(alloc),
        alloc,
    };
    for step in steps {
        take(rt, &mut trial, step)?;
    }
    Ok(())
}

#[test]
fn rows(rt: HostRuntime) -> Result<(), Fail> {
    for steps in &ROWS {
        test_row(&rt, rt.alloc(), steps)?;
    }
    for steps in &FURTHER_ROWS {
        test_row(&rt, rt.alloc(), steps)?;
    }
    Ok(())
}

#[test]
fn long_chain(rt: HostRuntime) -> Result<(), Fail> {
    test_row(&rt, rt.alloc(), LONG_CHAIN)?;
    Ok(())
}

#[test]
fn deep_term(rt: HostRuntime) -> Result<(), Fail> {
    test_row(&rt, rt.alloc(), DEEP_TERM)?;
    Ok(())
}
