//! Tables of calls, with the frames that are taken behind them.
use scasp_list::Memory;
use scasp_name::NIL;
use scasp_search_parts::{Frame, FrameMark, Frames};
use scasp_syntax::{Atom, FlatItem, Lit, Terms};
use std::alloc::Global;
use std::process::Abort;
use std::test::Fail;

/// A frame, by what is told apart here.
#[derive(Clone, Copy, PartialEq, Eq)]
enum Short {
    /// A literal without arguments, with the truth that is asked.
    Item(bool),
    EndNode,
    EndLeaf,
    Check(u64),
}

enum Step {
    Put(Short),
    Take,
    /// The time to which `Undo` goes back is now.
    Mark,
    Undo,
}

struct Row {
    steps: &'static [Step],
    /// What is taken behind them, one after the other.
    taken: &'static [Short],
}

const ROWS: [Row; 5] = [
    Row {
        steps: &[],
        taken: &[],
    },
    Row {
        steps: &[
            Step::Put(Short::Check(7)),
            Step::Put(Short::EndLeaf),
            Step::Put(Short::EndNode),
            Step::Put(Short::Item(false)),
        ],
        taken: &[
            Short::Item(false),
            Short::EndNode,
            Short::EndLeaf,
            Short::Check(7),
        ],
    },
    // what was taken, and what was put in its place
    Row {
        steps: &[
            Step::Put(Short::Check(1)),
            Step::Put(Short::Item(true)),
            Step::Mark,
            Step::Take,
            Step::Take,
            Step::Put(Short::EndNode),
            Step::Undo,
        ],
        taken: &[Short::Item(true), Short::Check(1)],
    },
    // the same mark once more
    Row {
        steps: &[
            Step::Put(Short::EndLeaf),
            Step::Mark,
            Step::Take,
            Step::Undo,
            Step::Put(Short::EndNode),
            Step::Take,
            Step::Take,
            Step::Undo,
        ],
        taken: &[Short::EndLeaf],
    },
    // nothing was pending
    Row {
        steps: &[
            Step::Mark,
            Step::Take,
            Step::Put(Short::Item(true)),
            Step::Undo,
            Step::Put(Short::EndLeaf),
        ],
        taken: &[Short::EndLeaf],
    },
];

fn frame_of(alloc: Global, short: Short) -> Frame {
    match short {
        Short::Item(truth) => {
            let atom = Atom {
                minus: false,
                name: NIL,
                args: Terms::new(alloc),
            };
            let positive = true;
            Frame::Item(FlatItem::Call(Lit { positive, atom }), truth)
        }
        Short::EndNode => Frame::EndNode,
        Short::EndLeaf => Frame::EndLeaf,
        Short::Check(clause) => Frame::Check(clause),
    }
}

fn short_of(frame: &Frame) -> Short {
    match frame {
        Frame::Item(_, truth) => Short::Item(*truth),
        Frame::EndNode => Short::EndNode,
        Frame::EndLeaf => Short::EndLeaf,
        Frame::Check(clause) => Short::Check(*clause),
    }
}

/// Takes the step. The mark is the one to go back to from then on.
fn take_step(
    alloc: Global,
    frames: &mut Frames,
    mark: FrameMark,
    step: &Step,
) -> Result<FrameMark, Memory> {
    match step {
        Step::Put(short) => {
            frames.put(frame_of(alloc, *short))?;
            Ok(mark)
        }
        Step::Take => {
            let _frame = frames.take()?;
            Ok(mark)
        }
        Step::Mark => Ok(frames.mark()),
        Step::Undo => {
            frames.undo(mark);
            Ok(mark)
        }
    }
}

/// Whether the next frame that is taken is this one.
fn takes(frames: &mut Frames, short: Short) -> Result<bool, Memory> {
    let Some(frame) = frames.take()? else {
        return Ok(false);
    };
    Ok(short_of(&frame) == short)
}

/// Whether these frames are taken behind the steps, and none behind them.
fn leads_there(alloc: Global, row: &Row) -> Result<bool, Memory> {
    let mut frames = Frames::new(alloc);
    let mut mark = frames.mark();
    for step in row.steps {
        mark = take_step(alloc, &mut frames, mark, step)?;
    }
    for short in row.taken {
        if !takes(&mut frames, *short)? {
            return Ok(false);
        }
    }
    Ok(frames.take()?.is_none())
}

#[test]
fn rows(rt: HostRuntime) -> Result<(), Fail> {
    for row in &ROWS {
        assert!(rt; leads_there(rt.alloc(), row)?);
    }
    Ok(())
}
