//! Tables of calls, with the pieces behind them.
use scasp_list::Memory;
use scasp_told::Told;
use std::alloc::Global;
use std::process::Abort;
use std::test::Fail;

enum Step {
    Put(u64),
    /// At this place of the last piece, where it has one.
    Set(usize, u64),
    /// At the end of this piece, where it is one before the last.
    Insert(usize, u64),
    Open,
    Join,
    Mark,
    Leave,
}

struct Row {
    steps: &'static [Step],
    pieces: &'static [&'static [u64]],
}

const ROWS: [Row; 9] = [
    Row {
        steps: &[Step::Join, Step::Leave],
        pieces: &[&[]],
    },
    Row {
        steps: &[Step::Put(1), Step::Open, Step::Open, Step::Put(2)],
        pieces: &[&[1], &[], &[2]],
    },
    Row {
        steps: &[
            Step::Put(1),
            Step::Open,
            Step::Put(2),
            Step::Open,
            Step::Put(3),
            Step::Insert(0, 4),
            Step::Insert(1, 5),
            Step::Set(0, 6),
        ],
        pieces: &[&[1, 4], &[2, 5], &[6]],
    },
    Row {
        steps: &[
            Step::Put(1),
            Step::Open,
            Step::Put(2),
            Step::Open,
            Step::Put(3),
            Step::Join,
            Step::Set(1, 4),
            Step::Put(5),
        ],
        pieces: &[&[1], &[2, 4, 5]],
    },
    // each change, and back
    Row {
        steps: &[Step::Put(1), Step::Mark, Step::Put(2), Step::Leave],
        pieces: &[&[1]],
    },
    Row {
        steps: &[
            Step::Put(1),
            Step::Mark,
            Step::Open,
            Step::Put(2),
            Step::Insert(0, 3),
            Step::Join,
            Step::Set(0, 4),
            Step::Leave,
            Step::Put(5),
        ],
        pieces: &[&[1, 5]],
    },
    Row {
        steps: &[
            Step::Put(1),
            Step::Open,
            Step::Put(2),
            Step::Open,
            Step::Put(3),
            Step::Mark,
            Step::Join,
            Step::Join,
            Step::Set(1, 4),
            Step::Leave,
        ],
        pieces: &[&[1], &[2], &[3]],
    },
    // marks within marks
    Row {
        steps: &[
            Step::Put(1),
            Step::Open,
            Step::Mark,
            Step::Put(2),
            Step::Insert(0, 3),
            Step::Mark,
            Step::Insert(0, 4),
            Step::Set(0, 5),
            Step::Leave,
        ],
        pieces: &[&[1, 3], &[2]],
    },
    Row {
        steps: &[
            Step::Put(1),
            Step::Open,
            Step::Mark,
            Step::Put(2),
            Step::Mark,
            Step::Join,
            Step::Leave,
            Step::Leave,
            Step::Leave,
        ],
        pieces: &[&[1], &[]],
    },
];

fn take_step(told: &mut Told<u64>, step: &Step) -> Result<(), Memory> {
    match step {
        Step::Put(item) => told.put(*item),
        Step::Set(at, item) => {
            if *at < told.last().len() {
                told.set(*at, *item)?;
            }
            Ok(())
        }
        Step::Insert(number, item) => {
            if *number < told.count() - 1 {
                told.insert(*number, *item)?;
            }
            Ok(())
        }
        Step::Open => told.open(),
        Step::Join => told.join(),
        Step::Mark => told.mark(),
        Step::Leave => {
            told.leave();
            Ok(())
        }
    }
}

/// Whether these are the pieces.
fn has_pieces(told: &Told<u64>, pieces: &[&[u64]]) -> bool {
    if told.count() != pieces.len() {
        return false;
    }
    for (number, piece) in pieces.iter().enumerate() {
        if told.piece(number) != *piece {
            return false;
        }
    }
    true
}

/// Whether the steps lead to the pieces.
fn leads_there(alloc: Global, row: &Row) -> Result<bool, Memory> {
    let mut told = Told::new(alloc);
    for step in row.steps {
        take_step(&mut told, step)?;
    }
    Ok(has_pieces(&told, row.pieces))
}

#[test]
fn rows(rt: HostRuntime) -> Result<(), Fail> {
    for row in &ROWS {
        assert!(rt; leads_there(rt.alloc(), row)?);
    }
    Ok(())
}
