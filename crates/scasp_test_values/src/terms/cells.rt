//! Stacks: their steps, and which items are dropped when.
use scasp_cells::Cells;
use std::cell::Cell;
use std::process::Abort;
use std::rc::Rc;
use std::test::Fail;

#[derive(Clone, Copy, Debug)]
enum Step {
    Reserve(u64),
    Push(u64),
    Set(u64, u64),
    Rewind(u64),
}

// Makes one call. A push answers its place and a `set` the old item.
fn answer(rt: &impl Abort, cells: &mut Cells<u64>, step: Step) -> Option<u64> {
    assert!(rt; cells.len() < 100);
    match step {
        Step::Reserve(n) => {
            assert!(rt; n < 100);
            assert_eq!(rt; cells.reserve(n), Ok(()));
            None
        }
        Step::Push(item) => cells.push(item).ok(),
        Step::Set(at, item) => {
            assert!(rt; at < cells.len());
            Some(cells.set(at, item))
        }
        Step::Rewind(len) => {
            assert!(rt; len <= cells.len());
            cells.rewind(len);
            None
        }
    }
}

struct Row {
    steps: &'static [(Step, Option<u64>)],
    items: &'static [u64],
    least_spare: u64,
}

const ROWS: [Row; 4] = [
    Row {
        steps: &[],
        items: &[],
        least_spare: 0,
    },
    Row {
        steps: &[
            (Step::Reserve(2), None),
            (Step::Push(4), Some(0)),
            (Step::Push(6), Some(1)),
            (Step::Rewind(0), None),
        ],
        items: &[],
        least_spare: 2,
    },
    Row {
        steps: &[
            (Step::Reserve(3), None),
            (Step::Push(7), Some(0)),
            (Step::Push(8), Some(1)),
            (Step::Push(9), Some(2)),
            (Step::Rewind(1), None),
            (Step::Push(5), Some(1)),
        ],
        items: &[7, 5],
        least_spare: 1,
    },
    Row {
        steps: &[
            (Step::Push(7), Some(0)),
            (Step::Push(8), Some(1)),
            (Step::Push(9), Some(2)),
            (Step::Push(10), Some(3)),
            (Step::Set(0, 6), Some(7)),
            (Step::Set(3, 11), Some(10)),
        ],
        items: &[6, 8, 9, 11],
        least_spare: 0,
    },
];

fn take(rt: &impl Abort, cells: &mut Cells<u64>, steps: &[(Step, Option<u64>)]) {
    for (step, want) in steps {
        assert_eq!(rt; answer(rt, cells, *step), *want);
    }
}

fn hold(rt: &impl Abort, cells: &Cells<u64>, items: &[u64]) {
    assert_eq!(rt; cells.len(), items.len() as u64);
    assert_eq!(rt; cells.is_empty(), items.is_empty());
    for (at, item) in items.iter().enumerate() {
        let at = at as u64;
        assert!(rt; at < cells.len());
        assert_eq!(rt; *cells.get(at), *item);
    }
}

#[test]
fn rows(rt: HostRuntime) {
    for row in &ROWS {
        let mut cells = Cells::new(rt.alloc());
        take(&rt, &mut cells, row.steps);
        hold(&rt, &cells, row.items);
        assert!(rt; row.least_spare <= cells.spare());
    }
}

// An item that owns memory, and writes its number behind a decimal when it is dropped.
struct Noted {
    number: u64,
    log: Rc<Cell<u64>>,
}

impl Drop for Noted {
    fn drop(self) {
        self.log
            .set(self.log.get().wrapping_mul(10).wrapping_add(self.number));
        let Noted { number: _, log: _ } = self;
    }
}

fn with_number(number: u64, log: &Rc<Cell<u64>>) -> Result<Noted, Fail> {
    Ok(Noted {
        number,
        log: log.clone()?,
    })
}

fn push_five(rt: &impl Abort, cells: &mut Cells<Noted>, log: &Rc<Cell<u64>>) -> Result<(), Fail> {
    for number in 1..6 {
        assert!(rt; cells.len() < 9);
        let item = with_number(number, log)?;
        assert!(rt; cells.push(item).is_ok());
    }
    Ok(())
}

fn replace_first(
    rt: &impl Abort,
    cells: &mut Cells<Noted>,
    log: &Rc<Cell<u64>>,
) -> Result<(), Fail> {
    assert!(rt; 3 <= cells.len());
    cells.rewind(3);
    assert_eq!(rt; log.get(), 54);
    assert!(rt; 1 <= cells.len());
    let _ = cells.set(0, with_number(6, log)?);
    assert_eq!(rt; log.get(), 541);
    Ok(())
}

#[test]
fn drops(rt: HostRuntime) -> Result<(), Fail> {
    let log = Rc::new(rt.alloc(), Cell::new(0))?;
    let mut cells = Cells::new(rt.alloc());
    push_five(&rt, &mut cells, &log)?;
    replace_first(&rt, &mut cells, &log)?;
    drop(cells);
    assert_eq!(rt; log.get(), 541326);
    Ok(())
}
