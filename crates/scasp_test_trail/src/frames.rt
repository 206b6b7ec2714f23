//! Tables of calls, with the work behind them.
use scasp_frames::Frames;
use scasp_list::Memory;
use scasp_search_rules::{Task, Tasks};
use std::alloc::Global;
use std::process::Abort;
use std::test::Fail;

enum Step {
    Void,
    /// The end of a literal, and behind it that of a case.
    Ends,
    Take,
    Mark,
    Leave,
}

struct Row {
    steps: &'static [Step],
    /// How many tasks there are, and whether the first one ends a case.
    count: usize,
    closes: bool,
}

const ROWS: [Row; 5] = [
    Row {
        steps: &[Step::Leave, Step::Take],
        count: 0,
        closes: false,
    },
    Row {
        steps: &[Step::Void, Step::Ends],
        count: 3,
        closes: false,
    },
    Row {
        steps: &[Step::Void, Step::Ends, Step::Take],
        count: 2,
        closes: true,
    },
    // and back
    Row {
        steps: &[
            Step::Ends,
            Step::Take,
            Step::Mark,
            Step::Take,
            Step::Void,
            Step::Leave,
        ],
        count: 1,
        closes: true,
    },
    Row {
        steps: &[
            Step::Ends,
            Step::Mark,
            Step::Take,
            Step::Mark,
            Step::Take,
            Step::Leave,
            Step::Leave,
        ],
        count: 2,
        closes: false,
    },
];

fn ends(alloc: Global) -> Result<Tasks, Memory> {
    let mut tasks = Tasks::new(alloc);
    tasks.push(Task::Leave)?;
    tasks.push(Task::Close)?;
    Ok(tasks)
}

fn take_step(alloc: Global, frames: &mut Frames, step: &Step) -> Result<(), Memory> {
    match step {
        Step::Void => frames.put(Task::Void),
        Step::Ends => frames.put_all(ends(alloc)?),
        Step::Take => {
            let _task = frames.take_task(alloc)?;
            Ok(())
        }
        Step::Mark => frames.mark(),
        Step::Leave => {
            frames.leave();
            Ok(())
        }
    }
}

/// Whether the steps lead there.
fn leads_there(alloc: Global, row: &Row) -> Result<bool, Memory> {
    let mut frames = Frames::new(alloc);
    for step in row.steps {
        take_step(alloc, &mut frames, step)?;
    }
    let tasks = frames.tasks(alloc)?;
    Ok(
        tasks.len() == row.count
            && frames.has_work() == (row.count > 0)
            && frames.closes() == row.closes,
    )
}

#[test]
fn rows(rt: HostRuntime) -> Result<(), Fail> {
    for row in &ROWS {
        assert!(rt; leads_there(rt.alloc(), row)?);
    }
    Ok(())
}
