//! Tables of calls, with the covers behind them.
use scasp_bound::Bound;
use scasp_forall::{Opening, Scopes};
use scasp_list::Memory;
use scasp_search_rules::{CaseList, Parting};
use scasp_syntax::{Con, Cons, Term, VarList};
use std::alloc::Global;
use std::process::Abort;
use std::test::Fail;

enum Step {
    /// A cover that is plain or not, the number of its case, and its universal variables.
    Open(bool, u64, &'static [u64]),
    /// Variable 0 is a number in the case of the cover of this depth, and none in the remainder.
    Split(u64),
    TakeUp(u64),
    Close,
    Mark,
    Leave,
}

struct Row {
    steps: &'static [Step],
    cases: &'static [u64],
    around: &'static [u64],
    universals: &'static [u64],
    waits: bool,
    regions: usize,
    /// Whether variable 0 is a number by the outermost cover, and stands in any constraint.
    is_number: bool,
    is_constrained: bool,
}

const ROWS: [Row; 6] = [
    Row {
        steps: &[Step::Close, Step::TakeUp(1), Step::Split(1), Step::Leave],
        cases: &[],
        around: &[],
        universals: &[],
        waits: false,
        regions: 0,
        is_number: false,
        is_constrained: false,
    },
    Row {
        steps: &[Step::Open(true, 0, &[0]), Step::Open(false, 1, &[1, 2])],
        cases: &[1, 0],
        around: &[1],
        universals: &[1, 2],
        waits: false,
        regions: 0,
        is_number: false,
        is_constrained: false,
    },
    // a split of an outer cover, which is plain no more
    Row {
        steps: &[
            Step::Open(true, 0, &[0]),
            Step::Open(true, 1, &[1]),
            Step::Split(1),
        ],
        cases: &[1, 0],
        around: &[0],
        universals: &[1],
        waits: false,
        regions: 1,
        is_number: true,
        is_constrained: true,
    },
    Row {
        steps: &[
            Step::Open(false, 0, &[]),
            Step::Open(false, 1, &[0]),
            Step::Split(2),
        ],
        cases: &[1, 0],
        around: &[1, 0],
        universals: &[0],
        waits: true,
        regions: 1,
        is_number: false,
        is_constrained: true,
    },
    Row {
        steps: &[Step::Open(false, 0, &[0]), Step::Split(1), Step::TakeUp(1)],
        cases: &[1],
        around: &[1],
        universals: &[0],
        waits: false,
        regions: 1,
        is_number: false,
        is_constrained: true,
    },
    // and back
    Row {
        steps: &[
            Step::Open(true, 0, &[0]),
            Step::Mark,
            Step::Split(1),
            Step::Mark,
            Step::TakeUp(1),
            Step::Open(false, 2, &[3]),
            Step::Leave,
            Step::Close,
            Step::Leave,
        ],
        cases: &[0],
        around: &[],
        universals: &[0],
        waits: false,
        regions: 0,
        is_number: false,
        is_constrained: false,
    },
];

fn parting(alloc: Global) -> Parting {
    Parting {
        here: Con::Num(Term::Var(0)),
        line: Con::Num(Term::Var(0)),
        there: Con::NotNum(Term::Var(0)),
        parts_here: VarList::new(alloc),
        parts_there: VarList::new(alloc),
    }
}

fn take_step(alloc: Global, scopes: &mut Scopes, bound: &Bound, step: &Step) -> Result<(), Memory> {
    match step {
        Step::Open(plain, case, universals) => {
            let opening = Opening {
                clause: 1,
                first: 0,
                checks_head: false,
                plain: *plain,
            };
            scopes.open(alloc, opening, *case, universals)
        }
        Step::Split(depth) => scopes.split(alloc, *depth, &parting(alloc), bound),
        Step::TakeUp(case) => scopes.take_up(*case),
        Step::Close => scopes.close(),
        Step::Mark => scopes.mark(),
        Step::Leave => {
            scopes.leave();
            Ok(())
        }
    }
}

/// Whether the cases are these.
fn has_cases(alloc: Global, scopes: &Scopes, row: &Row) -> Result<bool, Memory> {
    let cases: CaseList = scopes.open_cases(alloc)?;
    let around: CaseList = scopes.cases_around(alloc)?;
    let covers = scopes.covers(alloc)?;
    Ok(
        cases.as_slice() == row.cases
            && around.as_slice() == row.around
            && scopes.depth() == row.cases.len()
            && covers.len() == row.cases.len(),
    )
}

/// Whether the constraints are these.
fn has_constraints(
    alloc: Global,
    scopes: &Scopes,
    bound: &Bound,
    row: &Row,
) -> Result<bool, Memory> {
    let mut regions = Cons::new(alloc);
    scopes.push_regions(alloc, &mut regions)?;
    Ok(
        regions.len() == row.regions
            && scopes.is_number_by(alloc, bound, 1, 0)? == row.is_number
            && scopes.is_constrained(alloc, bound, 0)? == row.is_constrained,
    )
}

/// Whether the steps lead there.
fn leads_there(alloc: Global, row: &Row) -> Result<bool, Memory> {
    let mut scopes = Scopes::new(alloc);
    let bound = Bound::new(alloc);
    for step in row.steps {
        take_step(alloc, &mut scopes, &bound, step)?;
    }
    let universals = scopes.universals(alloc)?;
    Ok(
        universals.as_slice() == row.universals
            && scopes.has_universals() != row.universals.is_empty()
            && scopes.waits() == row.waits
            && has_cases(alloc, &scopes, row)?
            && has_constraints(alloc, &scopes, &bound, row)?,
    )
}

#[test]
fn rows(rt: HostRuntime) -> Result<(), Fail> {
    for row in &ROWS {
        assert!(rt; leads_there(rt.alloc(), row)?);
    }
    Ok(())
}
