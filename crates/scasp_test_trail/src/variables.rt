//! Tables of calls, with the variables behind them.
use scasp_list::Memory;
use scasp_search_rules::{Kind, Made};
use scasp_variables::Variables;
use std::alloc::Global;
use std::process::Abort;
use std::test::Fail;

enum Step {
    Make(Kind, u64, u64),
    Lower(u64, &'static [u64]),
    BecomeUniversal(u64, &'static [u64]),
    Mark,
    Leave,
}

struct Row {
    steps: &'static [Step],
    made: &'static [Made],
}

const E: Kind = Kind::Existential;

const U: Kind = Kind::Universal;

const M: Kind = Kind::Matched;

const ROWS: [Row; 5] = [
    Row {
        steps: &[
            Step::Leave,
            Step::Lower(0, &[0]),
            Step::BecomeUniversal(1, &[2]),
        ],
        made: &[],
    },
    // existentials alone are lowered, and none is raised
    Row {
        steps: &[
            Step::Make(E, 2, 2),
            Step::Make(U, 2, 1),
            Step::Make(M, 0, 1),
            Step::Lower(1, &[0, 2, 9]),
            Step::Lower(5, &[1]),
        ],
        made: &[
            Made { kind: E, depth: 1 },
            Made { kind: E, depth: 2 },
            Made { kind: U, depth: 2 },
            Made { kind: M, depth: 0 },
        ],
    },
    Row {
        steps: &[Step::Make(M, 0, 2), Step::BecomeUniversal(3, &[1])],
        made: &[Made { kind: M, depth: 0 }, Made { kind: U, depth: 3 }],
    },
    // and back
    Row {
        steps: &[
            Step::Make(E, 4, 1),
            Step::Make(M, 0, 1),
            Step::Mark,
            Step::Lower(3, &[0]),
            Step::Make(E, 1, 3),
            Step::Mark,
            Step::BecomeUniversal(2, &[1, 2]),
            Step::Lower(0, &[0]),
            Step::Leave,
        ],
        made: &[
            Made { kind: E, depth: 3 },
            Made { kind: M, depth: 0 },
            Made { kind: E, depth: 1 },
            Made { kind: E, depth: 1 },
            Made { kind: E, depth: 1 },
        ],
    },
    Row {
        steps: &[
            Step::Make(E, 4, 1),
            Step::Mark,
            Step::Lower(3, &[0]),
            Step::Make(U, 1, 1),
            Step::Leave,
        ],
        made: &[Made { kind: E, depth: 4 }],
    },
];

fn take_step(variables: &mut Variables, step: &Step) -> Result<(), Memory> {
    match step {
        Step::Make(kind, depth, count) => variables.make(*kind, *depth, *count),
        Step::Lower(depth, xs) => variables.lower(*depth, xs),
        Step::BecomeUniversal(depth, xs) => variables.become_universal(*depth, xs),
        Step::Mark => variables.mark(),
        Step::Leave => {
            variables.leave();
            Ok(())
        }
    }
}

/// Whether these are the variables.
fn are(variables: &Variables, made: &[Made]) -> bool {
    for (place, one) in made.iter().enumerate() {
        if variables.made_at(place as u64) != *one {
            return false;
        }
    }
    variables.next_variable() == made.len() as u64
}

/// Whether the steps lead to the variables.
fn leads_there(alloc: Global, row: &Row) -> Result<bool, Memory> {
    let mut variables = Variables::new(alloc);
    for step in row.steps {
        take_step(&mut variables, step)?;
    }
    Ok(are(&variables, row.made))
}

#[test]
fn rows(rt: HostRuntime) -> Result<(), Fail> {
    for row in &ROWS {
        assert!(rt; leads_there(rt.alloc(), row)?);
    }
    Ok(())
}
