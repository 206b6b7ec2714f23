//! Lists whose sums all keep a variable, but for one pair. Lower row `j` and upper row `i` make a row with `i+100j`
//! times x1 and twice x2, so no two are the same.
use crate::written::row_of;
use scasp_num::{Op, Row, Rows, Steps};
use scasp_rows::{LinErr, Verdict, eliminate, is_free_of_disequations};
use std::alloc::Global;
use std::test::Fail;

/// What the elimination answers.
enum Want {
    Sat,
    Overflow,
    /// Unsatisfiable after so many steps, of which the last adds these rows.
    Unsat(usize, u64, u64),
}

/// `count` upper rows and `count` lower rows of x0, and two more whose sum is twice the constant, where it is given.
struct Dense {
    count: u8,
    constant: Option<i128>,
    want: Want,
}

static DENSE: [Dense; 5] = [
    Dense {
        count: 64,
        constant: None,
        want: Want::Sat,
    },
    Dense {
        count: 65,
        constant: None,
        want: Want::Overflow,
    },
    Dense {
        count: 2,
        constant: Some(1),
        want: Want::Unsat(9, 6, 5),
    },
    Dense {
        count: 65,
        constant: Some(1),
        want: Want::Unsat(4356, 132, 131),
    },
    Dense {
        count: 65,
        constant: Some(-1),
        want: Want::Overflow,
    },
];

fn upper(alloc: Global, x1: u8, x2: i128, constant: i128) -> Result<Row, Fail> {
    row_of(
        alloc,
        &[(0, 1), (1, i128::from(x1)), (2, x2)],
        constant,
        Op::Le,
    )
}

fn lower(alloc: Global, x1: i128, x2: i128, constant: i128) -> Result<Row, Fail> {
    row_of(alloc, &[(0, -1), (1, x1), (2, x2)], constant, Op::Le)
}

fn rows(alloc: Global, given: &Dense) -> Result<Rows, Fail> {
    let mut rows = Rows::new(alloc);
    for i in 1..=given.count {
        rows.push(upper(alloc, i, 1, 0)?)?;
        rows.push(lower(alloc, 100 * i128::from(i), 1, 0)?)?;
    }
    if let Some(constant) = given.constant {
        rows.push(upper(alloc, 2, 3, constant)?)?;
        rows.push(lower(alloc, -2, -3, constant)?)?;
    }
    Ok(rows)
}

fn are_steps(steps: &Steps, count: usize, p: u64, q: u64) -> bool {
    let steps = steps.as_slice();
    match steps.last() {
        Some(s) => steps.len() == count && s.a == 1 && s.p == p && s.b == 1 && s.q == q,
        None => false,
    }
}

fn is_as_wanted(answer: &Result<Verdict, LinErr>, want: &Want) -> bool {
    match answer {
        Ok(Verdict::Sat) => matches!(want, Want::Sat),
        Ok(Verdict::Unsat(steps)) => {
            matches!(want, Want::Unsat(count, p, q) if are_steps(steps, *count, *p, *q))
        }
        Err(LinErr::Overflow) => matches!(want, Want::Overflow),
        Err(LinErr::Memory) => false,
    }
}

#[test]
fn dense_rows(rt: HostRuntime) -> Result<(), Fail> {
    for given in &DENSE {
        let rows = rows(rt.alloc(), given)?;
        assert!(rt; is_free_of_disequations(&rows));
        let answer = eliminate(rt.alloc(), &rows);
        assert!(rt; is_as_wanted(&answer, &given.want));
    }
    Ok(())
}
