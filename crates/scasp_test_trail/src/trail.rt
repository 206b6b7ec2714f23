//! Tables of calls, with what the list is behind them.
use scasp_list::Memory;
use scasp_trail::Trailed;
use std::alloc::Global;
use std::process::Abort;
use std::test::Fail;

enum Step {
    Push(u64),
    Pop,
    /// At this place, where it is one of the list.
    Set(usize, u64),
    Insert(usize, u64),
    Mark,
    Leave,
}

struct Row {
    steps: &'static [Step],
    left: &'static [u64],
}

const ROWS: [Row; 12] = [
    // nothing to take away, and no mark to go back to
    Row {
        steps: &[Step::Pop, Step::Leave],
        left: &[],
    },
    Row {
        steps: &[Step::Push(1), Step::Push(2), Step::Leave, Step::Pop],
        left: &[1],
    },
    Row {
        steps: &[
            Step::Push(1),
            Step::Insert(0, 2),
            Step::Insert(2, 3),
            Step::Set(1, 4),
        ],
        left: &[2, 4, 3],
    },
    // each change alone, and back
    Row {
        steps: &[Step::Push(1), Step::Mark, Step::Push(2), Step::Leave],
        left: &[1],
    },
    Row {
        steps: &[
            Step::Push(1),
            Step::Push(2),
            Step::Mark,
            Step::Pop,
            Step::Pop,
            Step::Pop,
            Step::Leave,
        ],
        left: &[1, 2],
    },
    Row {
        steps: &[
            Step::Push(1),
            Step::Push(2),
            Step::Mark,
            Step::Set(0, 3),
            Step::Set(0, 4),
            Step::Leave,
        ],
        left: &[1, 2],
    },
    Row {
        steps: &[
            Step::Push(1),
            Step::Push(2),
            Step::Mark,
            Step::Insert(1, 3),
            Step::Insert(0, 4),
            Step::Leave,
        ],
        left: &[1, 2],
    },
    // below the mark and above it
    Row {
        steps: &[
            Step::Push(1),
            Step::Push(2),
            Step::Push(3),
            Step::Mark,
            Step::Pop,
            Step::Push(4),
            Step::Push(5),
            Step::Set(2, 6),
            Step::Insert(1, 7),
            Step::Set(3, 8),
            Step::Pop,
            Step::Pop,
            Step::Pop,
            Step::Leave,
        ],
        left: &[1, 2, 3],
    },
    // marks within marks, one at the same list
    Row {
        steps: &[
            Step::Push(1),
            Step::Mark,
            Step::Push(2),
            Step::Mark,
            Step::Mark,
            Step::Pop,
            Step::Set(0, 3),
            Step::Leave,
            Step::Leave,
        ],
        left: &[1, 2],
    },
    Row {
        steps: &[
            Step::Push(1),
            Step::Mark,
            Step::Push(2),
            Step::Mark,
            Step::Insert(0, 4),
            Step::Pop,
            Step::Pop,
            Step::Leave,
            Step::Pop,
            Step::Pop,
            Step::Leave,
        ],
        left: &[1],
    },
    // behind a mark that was left, up to the mark before
    Row {
        steps: &[
            Step::Push(1),
            Step::Push(2),
            Step::Mark,
            Step::Pop,
            Step::Mark,
            Step::Set(0, 5),
            Step::Leave,
            Step::Set(0, 6),
            Step::Push(7),
            Step::Leave,
        ],
        left: &[1, 2],
    },
    // left once more than marked
    Row {
        steps: &[
            Step::Push(1),
            Step::Mark,
            Step::Leave,
            Step::Set(0, 2),
            Step::Leave,
        ],
        left: &[2],
    },
];

fn take_step(list: &mut Trailed<u64>, step: &Step) -> Result<(), Memory> {
    match step {
        Step::Push(item) => list.push(*item),
        Step::Pop => list.pop(),
        Step::Set(at, item) => {
            if *at < list.len() {
                list.set(*at, *item)?;
            }
            Ok(())
        }
        Step::Insert(at, item) => {
            if *at <= list.len() {
                list.insert(*at, *item)?;
            }
            Ok(())
        }
        Step::Mark => list.mark(),
        Step::Leave => {
            list.leave();
            Ok(())
        }
    }
}

/// Whether the steps lead to the list.
fn leads_there(alloc: Global, row: &Row) -> Result<bool, Memory> {
    let mut list = Trailed::new(alloc);
    for step in row.steps {
        take_step(&mut list, step)?;
    }
    Ok(list.as_slice() == row.left)
}

#[test]
fn rows(rt: HostRuntime) -> Result<(), Fail> {
    for row in &ROWS {
        assert!(rt; leads_there(rt.alloc(), row)?);
    }
    Ok(())
}

/// A million changes below a mark, and back.
#[test]
fn many_changes(rt: HostRuntime) -> Result<(), Fail> {
    let mut list = Trailed::new(rt.alloc());
    for number in 0..1000 {
        list.push(number)?;
    }
    list.mark()?;
    for number in 0..1_000_000 {
        if list.len() > 500 {
            list.pop()?;
        } else {
            list.push(number)?;
        }
    }
    list.leave();
    assert!(rt; list.len() == 1000 && list.as_slice().last() == Some(&999));
    Ok(())
}
