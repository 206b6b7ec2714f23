//! Tables of calls, with what variables read as behind them.
use scasp_bound::Bound;
use scasp_list::Memory;
use scasp_syntax::Term;
use scasp_unify::Binding;
use std::alloc::Global;
use std::process::Abort;
use std::test::Fail;

enum Step {
    /// The first variable is bound to the other one.
    Bind(u64, u64),
    TakeOut(u64),
    EndCase(&'static [u64], &'static [u64]),
    Mark,
    Leave,
}

/// A variable, what its first binding says, if it has one, and what it reads as.
struct Reading {
    x: u64,
    first: Option<u64>,
    end: u64,
}

struct Row {
    steps: &'static [Step],
    readings: &'static [Reading],
}

const ROWS: [Row; 6] = [
    Row {
        steps: &[Step::Leave, Step::TakeOut(3)],
        readings: &[Reading {
            x: 3,
            first: None,
            end: 3,
        }],
    },
    // a way of two bindings, in order and not
    Row {
        steps: &[Step::Bind(0, 1), Step::Bind(1, 2)],
        readings: &[
            Reading {
                x: 0,
                first: Some(1),
                end: 2,
            },
            Reading {
                x: 1,
                first: Some(2),
                end: 2,
            },
            Reading {
                x: 2,
                first: None,
                end: 2,
            },
        ],
    },
    Row {
        steps: &[Step::Bind(1, 2), Step::Bind(0, 1)],
        readings: &[
            Reading {
                x: 0,
                first: Some(1),
                end: 1,
            },
            Reading {
                x: 1,
                first: Some(2),
                end: 2,
            },
        ],
    },
    // two bindings of one variable, of which the later one is met behind another binding
    Row {
        steps: &[Step::Bind(1, 2), Step::Bind(0, 1), Step::Bind(1, 3)],
        readings: &[
            Reading {
                x: 0,
                first: Some(1),
                end: 3,
            },
            Reading {
                x: 1,
                first: Some(2),
                end: 2,
            },
        ],
    },
    Row {
        steps: &[
            Step::Bind(1, 2),
            Step::Bind(0, 1),
            Step::Bind(1, 3),
            Step::TakeOut(1),
        ],
        readings: &[
            Reading {
                x: 0,
                first: Some(1),
                end: 1,
            },
            Reading {
                x: 1,
                first: None,
                end: 1,
            },
        ],
    },
    // taken out, bound again, and back
    Row {
        steps: &[
            Step::Bind(0, 1),
            Step::Bind(1, 2),
            Step::Mark,
            Step::TakeOut(1),
            Step::Bind(1, 3),
        ],
        readings: &[
            Reading {
                x: 0,
                first: Some(1),
                end: 3,
            },
            Reading {
                x: 1,
                first: Some(3),
                end: 3,
            },
        ],
    },
];

const FURTHER_ROWS: [Row; 3] = [
    Row {
        steps: &[
            Step::Bind(0, 1),
            Step::Bind(1, 2),
            Step::Mark,
            Step::EndCase(&[5, 1, 0], &[0]),
            Step::Bind(1, 3),
            Step::Leave,
        ],
        readings: &[
            Reading {
                x: 0,
                first: Some(1),
                end: 2,
            },
            Reading {
                x: 1,
                first: Some(2),
                end: 2,
            },
        ],
    },
    // marks within marks
    Row {
        steps: &[
            Step::Bind(4, 5),
            Step::Mark,
            Step::Bind(5, 6),
            Step::Mark,
            Step::TakeOut(4),
            Step::Bind(6, 7),
            Step::Leave,
        ],
        readings: &[
            Reading {
                x: 4,
                first: Some(5),
                end: 6,
            },
            Reading {
                x: 6,
                first: None,
                end: 6,
            },
        ],
    },
    Row {
        steps: &[
            Step::Bind(4, 5),
            Step::Mark,
            Step::Bind(5, 6),
            Step::Mark,
            Step::TakeOut(4),
            Step::Leave,
            Step::Leave,
            Step::Bind(5, 8),
        ],
        readings: &[
            Reading {
                x: 4,
                first: Some(5),
                end: 8,
            },
            Reading {
                x: 5,
                first: Some(8),
                end: 8,
            },
        ],
    },
];

fn take_step(bound: &mut Bound, step: &Step) -> Result<(), Memory> {
    match step {
        Step::Bind(x, y) => bound.push(Binding {
            x: *x,
            term: Term::Var(*y),
        }),
        Step::TakeOut(x) => bound.take_out(*x),
        Step::EndCase(universals, but) => bound.end_case(universals, but),
        Step::Mark => bound.mark(),
        Step::Leave => {
            bound.leave();
            Ok(())
        }
    }
}

/// The number of the variable, if the term is one.
fn variable(term: &Term) -> Option<u64> {
    match term {
        Term::Var(x) => Some(*x),
        Term::Num(_) | Term::App(_, _) => None,
    }
}

/// Whether it reads so.
fn is_read(alloc: Global, bound: &Bound, reading: &Reading) -> Result<bool, Memory> {
    let first = match bound.find(reading.x) {
        Some(binding) => variable(&binding.term),
        None => None,
    };
    let end = bound.read(alloc, &Term::Var(reading.x))?;
    Ok(first == reading.first && variable(&end) == Some(reading.end))
}

/// Whether the steps lead to the readings.
fn leads_there(alloc: Global, row: &Row) -> Result<bool, Memory> {
    let mut bound = Bound::new(alloc);
    for step in row.steps {
        take_step(&mut bound, step)?;
    }
    for reading in row.readings {
        if !is_read(alloc, &bound, reading)? {
            return Ok(false);
        }
    }
    Ok(true)
}

/// Whether each row leads where it says.
fn all_lead_there(alloc: Global, rows: &[Row]) -> Result<bool, Fail> {
    for row in rows {
        if !leads_there(alloc, row)? {
            return Ok(false);
        }
    }
    Ok(true)
}

#[test]
fn rows(rt: HostRuntime) -> Result<(), Fail> {
    assert!(rt; all_lead_there(rt.alloc(), ROWS.as_slice())?);
    assert!(rt; all_lead_there(rt.alloc(), FURTHER_ROWS.as_slice())?);
    Ok(())
}
