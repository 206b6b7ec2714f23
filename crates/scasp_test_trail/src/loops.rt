//! Tables of calls, with what a call of a literal is told behind them.
use scasp_bound::Bound;
use scasp_list::Memory;
use scasp_loops::Loops;
use scasp_name::{NIL, PAIR};
use scasp_search_rules::{CaseList, Kind};
use scasp_syntax::{Atom, Lit, Term, Terms};
use scasp_unify::Binding;
use scasp_variables::Variables;
use std::alloc::Global;
use std::process::Abort;
use std::test::Fail;

#[derive(Clone, Copy)]
enum Name {
    P,
    Q,
}

/// A literal of one variable: its sign, its name and the variable. The variables 0 to 3 are existential, 4 and 5 are universal.
#[derive(Clone, Copy)]
struct Short(bool, Name, u64);

enum Step {
    /// A literal, inside the case of this number.
    Open(Short, u64),
    Done,
    LoopsOut,
    /// The first variable is bound to the other one.
    Bind(u64, u64),
    EndCase(&'static [u64]),
    Mark,
    Leave,
}

struct Row {
    steps: &'static [Step],
    /// The call. The cases of `OPEN` are open.
    lit: Short,
    /// The number of the nearest literal above that is this one, and whether it is behind a negated one.
    nearest: Option<(u64, bool)>,
    seen: Option<u64>,
    /// How many literals of the other sign it is to differ from.
    opposites: usize,
}

const OPEN: [u64; 2] = [7, 2];

const P: Name = Name::P;

const Q: Name = Name::Q;

const ROWS: [Row; 9] = [
    Row {
        steps: &[Step::Leave, Step::Done, Step::LoopsOut, Step::EndCase(&[0])],
        lit: Short(true, P, 0),
        nearest: None,
        seen: None,
        opposites: 0,
    },
    // the nearest of two, with no negated literal between
    Row {
        steps: &[
            Step::Open(Short(true, P, 0), 2),
            Step::Open(Short(false, Q, 0), 2),
            Step::Open(Short(true, P, 0), 2),
            Step::Open(Short(true, Q, 1), 2),
        ],
        lit: Short(true, P, 0),
        nearest: Some((2, false)),
        seen: None,
        opposites: 0,
    },
    // behind a negated one; a literal that is done is no longer above
    Row {
        steps: &[
            Step::Open(Short(true, P, 0), 2),
            Step::Open(Short(false, Q, 0), 2),
            Step::Open(Short(true, P, 0), 2),
            Step::LoopsOut,
            Step::Done,
        ],
        lit: Short(true, P, 0),
        nearest: Some((0, true)),
        seen: None,
        opposites: 0,
    },
    // as the bindings read both
    Row {
        steps: &[
            Step::Open(Short(true, P, 0), 2),
            Step::Bind(0, 1),
            Step::Bind(2, 1),
        ],
        lit: Short(true, P, 2),
        nearest: Some((0, false)),
        seen: None,
        opposites: 0,
    },
    // the earliest that is done
    Row {
        steps: &[
            Step::Open(Short(true, P, 1), 2),
            Step::Done,
            Step::Open(Short(true, P, 0), 7),
            Step::Done,
            Step::Open(Short(true, P, 0), 2),
            Step::Done,
        ],
        lit: Short(true, P, 0),
        nearest: None,
        seen: Some(1),
        opposites: 0,
    },
    // not inside a case that has ended
    Row {
        steps: &[
            Step::Open(Short(true, P, 0), 1),
            Step::Done,
            Step::Open(Short(true, P, 0), 7),
            Step::Done,
        ],
        lit: Short(true, P, 0),
        nearest: None,
        seen: Some(1),
        opposites: 0,
    },
    // a loop leads out of a positive literal, and then out of the positive one around it; none out of a negative one
    Row {
        steps: &[
            Step::Open(Short(true, Q, 0), 2),
            Step::Open(Short(true, P, 0), 2),
            Step::LoopsOut,
            Step::Done,
            Step::Done,
        ],
        lit: Short(true, Q, 0),
        nearest: None,
        seen: None,
        opposites: 0,
    },
    Row {
        steps: &[
            Step::Open(Short(false, Q, 0), 2),
            Step::LoopsOut,
            Step::Done,
        ],
        lit: Short(false, Q, 0),
        nearest: None,
        seen: Some(0),
        opposites: 0,
    },
    // the other sign: of one predicate, without universal variables
    Row {
        steps: &[
            Step::Open(Short(false, P, 0), 2),
            Step::Open(Short(false, P, 1), 2),
            Step::Done,
            Step::Open(Short(false, Q, 0), 2),
            Step::Open(Short(true, P, 2), 2),
            Step::Open(Short(false, P, 4), 2),
        ],
        lit: Short(true, P, 0),
        nearest: None,
        seen: None,
        opposites: 2,
    },
];

const FURTHER_ROWS: [Row; 6] = [
    Row {
        steps: &[Step::Open(Short(false, P, 0), 2), Step::Bind(1, 5)],
        lit: Short(true, P, 1),
        nearest: None,
        seen: None,
        opposites: 0,
    },
    // general behind the end of a case
    Row {
        steps: &[
            Step::Open(Short(true, P, 0), 2),
            Step::Open(Short(false, P, 0), 2),
            Step::Bind(0, 3),
            Step::EndCase(&[3]),
        ],
        lit: Short(true, P, 3),
        nearest: None,
        seen: None,
        opposites: 0,
    },
    // and back
    Row {
        steps: &[
            Step::Open(Short(true, P, 0), 2),
            Step::Mark,
            Step::EndCase(&[0]),
            Step::Done,
            Step::Open(Short(false, P, 0), 2),
            Step::Leave,
        ],
        lit: Short(true, P, 0),
        nearest: Some((0, false)),
        seen: None,
        opposites: 0,
    },
    // the earliest of those that a mark has, behind what was undone
    Row {
        steps: &[
            Step::Open(Short(true, Q, 0), 2),
            Step::Open(Short(true, P, 0), 2),
            Step::Done,
            Step::Mark,
            Step::Open(Short(true, P, 1), 2),
            Step::Done,
            Step::Open(Short(false, P, 1), 2),
            Step::Leave,
            Step::Open(Short(true, P, 0), 2),
            Step::Done,
        ],
        lit: Short(true, P, 0),
        nearest: None,
        seen: Some(1),
        opposites: 0,
    },
    // the innermost that is open, behind two that are done
    Row {
        steps: &[
            Step::Open(Short(true, P, 0), 2),
            Step::Open(Short(false, Q, 0), 2),
            Step::Done,
            Step::Open(Short(true, Q, 1), 2),
            Step::Mark,
            Step::Done,
            Step::Done,
            Step::Leave,
            Step::Done,
        ],
        lit: Short(true, P, 0),
        nearest: Some((0, false)),
        seen: None,
        opposites: 0,
    },
    // those without variables are passed over at the end of a case, and the others are not
    Row {
        steps: &[
            Step::Open(Short(true, P, 0), 2),
            Step::Open(Short(true, Q, 1), 2),
            Step::Bind(0, 3),
            Step::EndCase(&[4]),
            Step::Mark,
            Step::EndCase(&[3]),
            Step::Leave,
            Step::Open(Short(false, P, 1), 2),
            Step::EndCase(&[1]),
        ],
        lit: Short(true, P, 3),
        nearest: Some((0, true)),
        seen: None,
        opposites: 0,
    },
];

fn lit_of(alloc: Global, short: &Short) -> Result<Lit, Memory> {
    let mut args = Terms::new(alloc);
    args.push(Term::Var(short.2))?;
    Ok(Lit {
        positive: short.0,
        atom: Atom {
            minus: false,
            name: match short.1 {
                Name::P => NIL,
                Name::Q => PAIR,
            },
            args,
        },
    })
}

fn take_step(
    alloc: Global,
    loops: &mut Loops,
    bound: &mut Bound,
    step: &Step,
) -> Result<(), Memory> {
    match step {
        Step::Open(short, case) => {
            let mut cases = CaseList::new(alloc);
            cases.push(*case)?;
            loops.open(lit_of(alloc, short)?, cases)
        }
        Step::Done => loops.leave_literal(),
        Step::LoopsOut => loops.loops_out(),
        Step::Bind(x, y) => bound.push(Binding {
            x: *x,
            term: Term::Var(*y),
        }),
        Step::EndCase(universals) => loops.end_case(alloc, bound, universals),
        Step::Mark => loops.mark(),
        Step::Leave => {
            loops.leave();
            Ok(())
        }
    }
}

/// Whether the call is told so.
fn is_told(alloc: Global, loops: &Loops, bound: &Bound, row: &Row) -> Result<bool, Memory> {
    let mut variables = Variables::new(alloc);
    variables.make(Kind::Existential, 0, 4)?;
    variables.make(Kind::Universal, 1, 2)?;
    let lit = lit_of(alloc, &row.lit)?;
    let nearest = match loops.nearest(alloc, bound, &lit)? {
        Some(found) => Some((found.number, found.is_behind_negation)),
        None => None,
    };
    let seen = loops.seen(alloc, bound, &OPEN, &lit)?;
    let opposites = loops.opposites(alloc, bound, &variables, &lit)?;
    Ok(nearest == row.nearest && seen == row.seen && opposites.len() == row.opposites)
}

/// Whether the steps lead there.
fn leads_there(alloc: Global, row: &Row) -> Result<bool, Memory> {
    let mut loops = Loops::new(alloc);
    let mut bound = Bound::new(alloc);
    for step in row.steps {
        take_step(alloc, &mut loops, &mut bound, step)?;
    }
    is_told(alloc, &loops, &bound, row)
}

/// Whether each row leads where it says.
fn all_lead_there(alloc: Global, rows: &[Row]) -> Result<bool, Fail> {
    for row in rows {
        if !leads_there(alloc, row)? {
            return Ok(false);
        }
    }
    Ok(true)
}

#[test]
fn rows(rt: HostRuntime) -> Result<(), Fail> {
    assert!(rt; all_lead_there(rt.alloc(), ROWS.as_slice())?);
    assert!(rt; all_lead_there(rt.alloc(), FURTHER_ROWS.as_slice())?);
    Ok(())
}
