//! Which hint is found for a list. The answers were worked out by hand from the rules.
use crate::constraints::Told::{Compared, Differ, Equal, NoNumber, NoShape, Number};
use crate::constraints::Written::{F, N, V};
use crate::constraints::{Told, constraints};
use scasp_hint::{find, is_satisfiable, unsat};
use scasp_name::NameId;
use scasp_num::Op::{Eq, Le, Lt, Ne};
use scasp_rows::LinErr;
use scasp_syntax::{Con, Hint, Term, Terms};
use std::alloc::Global;
use std::test::Fail;

/// What is found: a hint, with the number of its disequation and of its lists of steps, or nothing.
enum Wanted {
    ByTerms,
    ByRows(usize),
    BySame(u64, usize),
    Nothing,
    TooLarge,
}

struct Case {
    list: &'static [Told],
    wanted: Wanted,
}

static TERMS_AND_ROWS: [Case; 14] = [
    // Without constraints there is a valuation.
    Case {
        list: &[],
        wanted: Wanted::Nothing,
    },
    // V0 \= a, V0 = a
    Case {
        list: &[Differ(V(0), F(2, &[])), Equal(V(0), F(2, &[]))],
        wanted: Wanted::ByTerms,
    },
    // V0 = f(V0): a variable inside the other side.
    Case {
        list: &[Equal(V(0), F(4, &[V(0)]))],
        wanted: Wanted::ByTerms,
    },
    // f(V0) = V1, g(V1, V1) = g(V2, f(V3)), V0 \= V3: variables that are shared, and a side that is turned.
    Case {
        list: &[
            Equal(F(4, &[V(0)]), V(1)),
            Equal(F(5, &[V(1), V(1)]), F(5, &[V(2), F(4, &[V(3)])])),
            Differ(V(0), V(3)),
        ],
        wanted: Wanted::ByTerms,
    },
    // f(V0) = V1, V1 \= f(a)
    Case {
        list: &[Equal(F(4, &[V(0)]), V(1)), Differ(V(1), F(4, &[F(2, &[])]))],
        wanted: Wanted::Nothing,
    },
    // V0 = f(a), V0 \= f/1: a shape that is excluded.
    Case {
        list: &[Equal(V(0), F(4, &[F(2, &[])])), NoShape(0, 4, 1)],
        wanted: Wanted::ByTerms,
    },
    // V0 = f(a), V0 \= f/2
    Case {
        list: &[Equal(V(0), F(4, &[F(2, &[])])), NoShape(0, 4, 2)],
        wanted: Wanted::Nothing,
    },
    // num(V0), V1 = V0, not num(V1)
    Case {
        list: &[Number(0), Equal(V(1), V(0)), NoNumber(1)],
        wanted: Wanted::ByTerms,
    },
    // V0 < 0 without num(V0)
    Case {
        list: &[Compared(&[(0, 1)], 0, Lt)],
        wanted: Wanted::Nothing,
    },
    // V0 > 0, not num(V0): no hint shows it, though it has no valuation. It is not sorted.
    Case {
        list: &[Compared(&[(0, -1)], 0, Lt), NoNumber(0)],
        wanted: Wanted::Nothing,
    },
    // num(V2), V1 = a, V1 < 0: it is not sorted either.
    Case {
        list: &[
            Number(2),
            Equal(V(1), F(2, &[])),
            Compared(&[(1, 1)], 0, Lt),
        ],
        wanted: Wanted::Nothing,
    },
    // num(V2), not num(V2), V1 < 0
    Case {
        list: &[Number(2), NoNumber(2), Compared(&[(1, 1)], 0, Lt)],
        wanted: Wanted::ByTerms,
    },
    // V0 = f(a), V0+1 < 0: the variable stays in the row, though it counts as 0.
    Case {
        list: &[Equal(V(0), F(4, &[F(2, &[])])), Compared(&[(0, 1)], 1, Lt)],
        wanted: Wanted::Nothing,
    },
    // V0 = a, V1 = a, V0-V1 < 0: two variables that stand for names stay two.
    Case {
        list: &[
            Equal(V(0), F(2, &[])),
            Equal(V(1), F(2, &[])),
            Compared(&[(0, 1), (1, -1)], 0, Lt),
        ],
        wanted: Wanted::Nothing,
    },
];

static FURTHER_TERMS_AND_ROWS: [Case; 7] = [
    // num(V0), V0 = V1, V0-V1 < 0: the resolved row is 0 < 0.
    Case {
        list: &[
            Number(0),
            Equal(V(0), V(1)),
            Compared(&[(0, 1), (1, -1)], 0, Lt),
        ],
        wanted: Wanted::ByTerms,
    },
    // num(V0), -2*V0+3 < 0, 2*V0-3 < 0
    Case {
        list: &[
            Number(0),
            Compared(&[(0, -2)], 3, Lt),
            Compared(&[(0, 2)], -3, Lt),
        ],
        wanted: Wanted::ByRows(1),
    },
    // num(V0), -2*V0+3 < 0, 2*V0-3 =< 0: the rows are negations of each other, so that no steps are needed.
    Case {
        list: &[
            Number(0),
            Compared(&[(0, -2)], 3, Lt),
            Compared(&[(0, 2)], -3, Le),
        ],
        wanted: Wanted::ByTerms,
    },
    // num(V0), -2*V0+3 < 0, 2*V0-3 < 0, V1 < 0, where V1 may be a name: its row shows nothing, and the others still do.
    Case {
        list: &[
            Number(0),
            Compared(&[(0, -2)], 3, Lt),
            Compared(&[(0, 2)], -3, Lt),
            Compared(&[(1, 1)], 0, Lt),
        ],
        wanted: Wanted::ByRows(1),
    },
    // num(V0), V0 =< 0, -V0 =< 0, V0 =\= 0, V1 < 0: the same with a disequation.
    Case {
        list: &[
            Number(0),
            Compared(&[(0, 1)], 0, Le),
            Compared(&[(0, -1)], 0, Le),
            Compared(&[(0, 1)], 0, Ne),
            Compared(&[(1, 1)], 0, Lt),
        ],
        wanted: Wanted::BySame(1, 2),
    },
    // num(V0), V0 = 0, V0 =\= 0: a disequation that is the negation of a row.
    Case {
        list: &[
            Number(0),
            Compared(&[(0, 1)], 0, Eq),
            Compared(&[(0, 1)], 0, Ne),
        ],
        wanted: Wanted::ByTerms,
    },
    // num(V0), V0 =< 0, -V0 =< 0, V0 =\= 0
    Case {
        list: &[
            Number(0),
            Compared(&[(0, 1)], 0, Le),
            Compared(&[(0, -1)], 0, Le),
            Compared(&[(0, 1)], 0, Ne),
        ],
        wanted: Wanted::BySame(1, 2),
    },
];

/// Disequations beside rows, and rows that are false or too large.
static DISEQUATIONS_AND_ENDS: [Case; 15] = [
    // num(V0), V0 =< 0, -V0 =< 0, V0 \= 0: a disequation of terms that the rows force.
    Case {
        list: &[
            Number(0),
            Compared(&[(0, 1)], 0, Le),
            Compared(&[(0, -1)], 0, Le),
            Differ(V(0), N(0)),
        ],
        wanted: Wanted::BySame(1, 2),
    },
    // num(V0), V0 =< 0, -V0 =< 0, g(V0, V1) \= g(0, 0): V1 may be a name.
    Case {
        list: &[
            Number(0),
            Compared(&[(0, 1)], 0, Le),
            Compared(&[(0, -1)], 0, Le),
            Differ(F(5, &[V(0), V(1)]), F(5, &[N(0), N(0)])),
        ],
        wanted: Wanted::Nothing,
    },
    // The same with num(V1): V1 may be another number.
    Case {
        list: &[
            Number(0),
            Number(1),
            Compared(&[(0, 1)], 0, Le),
            Compared(&[(0, -1)], 0, Le),
            Differ(F(5, &[V(0), V(1)]), F(5, &[N(0), N(0)])),
        ],
        wanted: Wanted::Nothing,
    },
    // The same with V1 = V0 by rows: each of the two parts has two lists of steps.
    Case {
        list: &[
            Number(0),
            Number(1),
            Compared(&[(0, 1)], 0, Le),
            Compared(&[(0, -1)], 0, Le),
            Compared(&[(0, 1), (1, -1)], 0, Eq),
            Differ(F(5, &[V(0), V(1)]), F(5, &[N(0), N(0)])),
        ],
        wanted: Wanted::BySame(1, 4),
    },
    // Equal parts are kept: g(V0, V0) \= g(0, 0).
    Case {
        list: &[
            Number(0),
            Compared(&[(0, 1)], 0, Le),
            Compared(&[(0, -1)], 0, Le),
            Differ(F(5, &[V(0), V(0)]), F(5, &[N(0), N(0)])),
        ],
        wanted: Wanted::BySame(1, 4),
    },
    // Identical parts are dropped: g(V1, V0) \= g(V1, 0).
    Case {
        list: &[
            Number(0),
            Compared(&[(0, 1)], 0, Le),
            Compared(&[(0, -1)], 0, Le),
            Differ(F(5, &[V(1), V(0)]), F(5, &[V(1), N(0)])),
        ],
        wanted: Wanted::BySame(1, 2),
    },
    // Numbers that differ make a disequation true: g(1, V0) \= g(2, 0).
    Case {
        list: &[
            Number(0),
            Compared(&[(0, 1)], 0, Le),
            Compared(&[(0, -1)], 0, Le),
            Differ(F(5, &[N(1), V(0)]), F(5, &[N(2), N(0)])),
        ],
        wanted: Wanted::Nothing,
    },
    // Disequations that are true by themselves are not counted: f(V0) \= a, V1 \= a, V0 \= 0.
    Case {
        list: &[
            Number(0),
            Compared(&[(0, 1)], 0, Le),
            Compared(&[(0, -1)], 0, Le),
            Differ(F(4, &[V(0)]), F(2, &[])),
            Differ(V(1), F(2, &[])),
            Differ(V(0), N(0)),
        ],
        wanted: Wanted::BySame(2, 2),
    },
    // Only the second disequation is forced: V0 \= 1, V0 \= 0.
    Case {
        list: &[
            Number(0),
            Compared(&[(0, 1)], 0, Le),
            Compared(&[(0, -1)], 0, Le),
            Differ(V(0), N(1)),
            Differ(V(0), N(0)),
        ],
        wanted: Wanted::BySame(2, 2),
    },
    // V0 \= V0
    Case {
        list: &[Differ(V(0), V(0))],
        wanted: Wanted::ByTerms,
    },
    // The false row 0 =\= 0.
    Case {
        list: &[Compared(&[], 0, Ne)],
        wanted: Wanted::ByTerms,
    },
    // V0 is the greatest number, and 2*V0+V1 =< 0 is too large; the false row behind it is not looked at.
    Case {
        list: &[
            Equal(V(0), N(i128::MAX)),
            Compared(&[(0, 2), (1, 1)], 0, Le),
            Compared(&[], 0, Ne),
        ],
        wanted: Wanted::TooLarge,
    },
    // A false row before it is.
    Case {
        list: &[
            Equal(V(0), N(i128::MAX)),
            Compared(&[], 0, Ne),
            Compared(&[(0, 2), (1, 1)], 0, Le),
        ],
        wanted: Wanted::ByTerms,
    },
    // A disequation that is too large: 2*V0+V1 =\= 0.
    Case {
        list: &[
            Equal(V(0), N(i128::MAX)),
            Compared(&[(0, 2), (1, 1)], 0, Ne),
        ],
        wanted: Wanted::TooLarge,
    },
    // 2^126*V0+3*V1-1 = 0, 5*V0-V1-2 = 0: the elimination needs 5 times 2^126.
    Case {
        list: &[
            Number(0),
            Number(1),
            Compared(
                &[(0, 85070591730234615865843651857942052864), (1, 3)],
                -1,
                Eq,
            ),
            Compared(&[(0, 5), (1, -1)], -2, Eq),
        ],
        wanted: Wanted::TooLarge,
    },
];

/// Whether the hint is the wanted one.
fn is_hint(hint: &Hint, wanted: &Wanted) -> bool {
    match hint {
        Hint::Terms => matches!(wanted, Wanted::ByTerms),
        Hint::Rows(steps) => matches!(wanted, Wanted::ByRows(count) if steps.len() == *count),
        Hint::Same(number, lists) => matches!(
            wanted,
            Wanted::BySame(place, count) if number == place && lists.len() == *count
        ),
    }
}

/// Whether what is wanted is found for a list: a hint shows the list, and without one it passes the test.
fn is_found(alloc: Global, list: &[Con], wanted: &Wanted) -> bool {
    let passes = is_satisfiable(alloc, list);
    match find(alloc, list) {
        Ok(Some(hint)) => {
            is_hint(&hint, wanted) && unsat(alloc, list, &hint).is_ok() && passes == Ok(false)
        }
        Ok(None) => matches!(wanted, Wanted::Nothing) && passes == Ok(true),
        Err(LinErr::Overflow) => {
            matches!(wanted, Wanted::TooLarge) && passes == Err(LinErr::Overflow)
        }
        Err(LinErr::Memory) => false,
    }
}

fn all_are_found(alloc: Global, cases: &[Case]) -> Result<bool, Fail> {
    for case in cases {
        let list = constraints(alloc, case.list)?;
        if !is_found(alloc, list.as_slice(), &case.wanted) {
            return Ok(false);
        }
    }
    Ok(true)
}

#[test]
fn hints_are_found(rt: HostRuntime) -> Result<(), Fail> {
    assert!(rt; all_are_found(rt.alloc(), TERMS_AND_ROWS.as_slice())?);
    assert!(rt; all_are_found(rt.alloc(), FURTHER_TERMS_AND_ROWS.as_slice())?);
    assert!(rt; all_are_found(rt.alloc(), DISEQUATIONS_AND_ENDS.as_slice())?);
    Ok(())
}

/// The name around the term.
fn named(alloc: Global, inner: Term) -> Result<Term, Fail> {
    let mut args = Terms::new(alloc);
    args.push(inner)?;
    Ok(Term::App(NameId::new(4), args))
}

/// 2,000 names around the variable.
fn nested(alloc: Global, x: u64) -> Result<Term, Fail> {
    let mut made = Term::Var(x);
    for _ in 0..2000 {
        made = named(alloc, made)?;
    }
    Ok(made)
}

/// 2,000 names around V0 and around V1 are equal.
fn nested_equation(alloc: Global) -> Result<Con, Fail> {
    let left = nested(alloc, 0)?;
    Ok(Con::Eq(left, nested(alloc, 1)?))
}

fn nested_list(alloc: Global) -> Result<Vec<Con>, Fail> {
    let mut list = Vec::new(alloc);
    list.push(nested_equation(alloc)?)?;
    Ok(list)
}

#[test]
fn nested_names_unify(rt: HostRuntime) -> Result<(), Fail> {
    let list = nested_list(rt.alloc())?;
    assert!(rt; is_found(rt.alloc(), list.as_slice(), &Wanted::Nothing));
    Ok(())
}

/// V0 differs from V1, too.
#[test]
fn nested_names_differ(rt: HostRuntime) -> Result<(), Fail> {
    let mut list = nested_list(rt.alloc())?;
    list.push(Con::Neq(Term::Var(0), Term::Var(1)))?;
    assert!(rt; is_found(rt.alloc(), list.as_slice(), &Wanted::ByTerms));
    Ok(())
}
