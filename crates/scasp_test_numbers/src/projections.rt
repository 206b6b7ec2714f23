//! What lists project to. The answers were worked out by hand from the rules.
use crate::constraints::Told::{Compared, Differ, NoNumber, NoShape, Number};
use crate::constraints::Written::{F, N, V};
use crate::constraints::{Told, constraints};
use scasp_list::Sequence;
use scasp_num::Op::{Eq, Le, Lt, Ne};
use scasp_project::{Projected, project};
use scasp_rows::LinErr;
use scasp_syntax::{Con, ConLists, VarList, same};
use std::alloc::Global;
use std::test::Fail;

/// The lists, or how many there are, or why there are none.
enum Wanted {
    Lists(&'static [&'static [Told]]),
    Count(usize),
    Many,
    TooLarge,
}

struct Case {
    list: &'static [Told],
    keep: &'static [u64],
    wanted: Wanted,
}

static CASES: [Case; 11] = [
    // Without constraints there is one empty list.
    Case {
        list: &[],
        keep: &[],
        wanted: Wanted::Lists(&[&[]]),
    },
    // V0 \= a, where nothing is dropped: the list itself.
    Case {
        list: &[NoShape(0, 2, 0)],
        keep: &[0],
        wanted: Wanted::Lists(&[&[NoShape(0, 2, 0)]]),
    },
    // not num(V0)
    Case {
        list: &[NoNumber(0)],
        keep: &[0],
        wanted: Wanted::Lists(&[&[NoNumber(0)]]),
    },
    // num(V0), V0 \= 3
    Case {
        list: &[Number(0), Differ(V(0), N(3))],
        keep: &[0],
        wanted: Wanted::Lists(&[&[Number(0), Differ(V(0), N(3))]]),
    },
    // num(V0), -V0+3 #< 0, V0-5 #< 0
    Case {
        list: &[
            Number(0),
            Compared(&[(0, -1)], 3, Lt),
            Compared(&[(0, 1)], -5, Lt),
        ],
        keep: &[0],
        wanted: Wanted::Lists(&[&[
            Number(0),
            Compared(&[(0, -1)], 3, Lt),
            Compared(&[(0, 1)], -5, Lt),
        ]]),
    },
    // The same, where V0 is dropped.
    Case {
        list: &[
            Number(0),
            Compared(&[(0, -1)], 3, Lt),
            Compared(&[(0, 1)], -5, Lt),
        ],
        keep: &[],
        wanted: Wanted::Lists(&[&[]]),
    },
    // num(V0), num(V1), V0-2*V1 #= 0, V1-3 #< 0: an equation with the dropped V1.
    Case {
        list: &[
            Number(0),
            Number(1),
            Compared(&[(0, 1), (1, -2)], 0, Eq),
            Compared(&[(1, 1)], -3, Lt),
        ],
        keep: &[0],
        wanted: Wanted::Lists(&[&[Number(0), Compared(&[(0, 1)], -6, Lt)]]),
    },
    // V0-V1 #=< 0, V1-V2 #=< 0
    Case {
        list: &[
            Number(0),
            Number(1),
            Number(2),
            Compared(&[(0, 1), (1, -1)], 0, Le),
            Compared(&[(1, 1), (2, -1)], 0, Le),
        ],
        keep: &[0, 2],
        wanted: Wanted::Lists(&[&[Number(0), Number(2), Compared(&[(0, 1), (2, -1)], 0, Le)]]),
    },
    // V0-V1 #< 0, V1-V2 #=< 0: strict where one of the two is.
    Case {
        list: &[
            Number(0),
            Number(1),
            Number(2),
            Compared(&[(0, 1), (1, -1)], 0, Lt),
            Compared(&[(1, 1), (2, -1)], 0, Le),
        ],
        keep: &[0, 2],
        wanted: Wanted::Lists(&[&[Number(0), Number(2), Compared(&[(0, 1), (2, -1)], 0, Lt)]]),
    },
    // V0-V1 #=< 0, V1-V2 #< 0
    Case {
        list: &[
            Number(0),
            Number(1),
            Number(2),
            Compared(&[(0, 1), (1, -1)], 0, Le),
            Compared(&[(1, 1), (2, -1)], 0, Lt),
        ],
        keep: &[0, 2],
        wanted: Wanted::Lists(&[&[Number(0), Number(2), Compared(&[(0, 1), (2, -1)], 0, Lt)]]),
    },
    // -V1 #< 0, V1 \= 0, V0-V1 #=< 0: a bound makes one side of the disequation void.
    Case {
        list: &[
            Number(0),
            Number(1),
            Compared(&[(1, -1)], 0, Lt),
            Differ(V(1), N(0)),
            Compared(&[(0, 1), (1, -1)], 0, Le),
        ],
        keep: &[0],
        wanted: Wanted::Lists(&[&[Number(0)]]),
    },
];

static FURTHER_CASES: [Case; 5] = [
    // -V0+V1 #=< 0, -V1 #=< 0, V1 \= 0: the list means num(V0), -V0 #< 0.
    Case {
        list: &[
            Number(0),
            Number(1),
            Compared(&[(0, -1), (1, 1)], 0, Le),
            Compared(&[(1, -1)], 0, Le),
            Differ(V(1), N(0)),
        ],
        keep: &[0],
        wanted: Wanted::Lists(&[&[
            Number(0),
            Compared(&[(0, -1)], 0, Le),
            Compared(&[(0, -1)], 0, Lt),
        ]]),
    },
    // The same with V1 \= 0 to V1 \= 5: below 1, between two of these numbers, or above 5.
    Case {
        list: &[
            Number(0),
            Number(1),
            Compared(&[(0, -1), (1, 1)], 0, Le),
            Compared(&[(1, -1)], 0, Le),
            Differ(V(1), N(0)),
            Differ(V(1), N(1)),
            Differ(V(1), N(2)),
            Differ(V(1), N(3)),
            Differ(V(1), N(4)),
            Differ(V(1), N(5)),
        ],
        keep: &[0],
        wanted: Wanted::Count(6),
    },
    // The same with V1 \= 0 to V1 \= 6.
    Case {
        list: &[
            Number(0),
            Number(1),
            Compared(&[(0, -1), (1, 1)], 0, Le),
            Compared(&[(1, -1)], 0, Le),
            Differ(V(1), N(0)),
            Differ(V(1), N(1)),
            Differ(V(1), N(2)),
            Differ(V(1), N(3)),
            Differ(V(1), N(4)),
            Differ(V(1), N(5)),
            Differ(V(1), N(6)),
        ],
        keep: &[0],
        wanted: Wanted::Many,
    },
    // Seven disequations of which one is of a kept variable.
    Case {
        list: &[
            Number(0),
            Number(1),
            Compared(&[(1, -1)], 0, Le),
            Differ(V(0), N(0)),
            Differ(V(1), N(1)),
            Differ(V(1), N(2)),
            Differ(V(1), N(3)),
            Differ(V(1), N(4)),
            Differ(V(1), N(5)),
            Differ(V(1), N(6)),
        ],
        keep: &[0],
        wanted: Wanted::Count(7),
    },
    // V1 \= V0, V1 \= V2: four alternatives.
    Case {
        list: &[
            Number(0),
            Number(1),
            Number(2),
            Differ(V(1), V(0)),
            Differ(V(1), V(2)),
        ],
        keep: &[0, 2],
        wanted: Wanted::Lists(&[
            &[Number(0), Number(2)],
            &[Number(0), Number(2), Compared(&[(0, -1), (2, 1)], 0, Lt)],
            &[Number(0), Number(2), Compared(&[(0, 1), (2, -1)], 0, Lt)],
            &[Number(0), Number(2)],
        ]),
    },
];

static LAST_CASES: [Case; 11] = [
    // -V1 #=< 0, V1 #=< 0, V0+V1-3 #\= 0: a row that is a disequation.
    Case {
        list: &[
            Number(0),
            Number(1),
            Compared(&[(1, -1)], 0, Le),
            Compared(&[(1, 1)], 0, Le),
            Compared(&[(0, 1), (1, 1)], -3, Ne),
        ],
        keep: &[0],
        wanted: Wanted::Lists(&[
            &[Number(0), Compared(&[(0, 1)], -3, Lt)],
            &[Number(0), Compared(&[(0, -1)], 3, Lt)],
        ]),
    },
    // V0-3 #\= 0 of a kept variable stays.
    Case {
        list: &[Number(0), Number(1), Compared(&[(0, 1)], -3, Ne)],
        keep: &[0],
        wanted: Wanted::Lists(&[&[Number(0), Compared(&[(0, 1)], -3, Ne)]]),
    },
    // V0 #< 0, V0 #> 0: no valuation, kept or dropped.
    Case {
        list: &[
            Number(0),
            Compared(&[(0, 1)], 0, Lt),
            Compared(&[(0, -1)], 0, Lt),
        ],
        keep: &[0],
        wanted: Wanted::Lists(&[]),
    },
    Case {
        list: &[
            Number(0),
            Compared(&[(0, 1)], 0, Lt),
            Compared(&[(0, -1)], 0, Lt),
        ],
        keep: &[],
        wanted: Wanted::Lists(&[]),
    },
    // num(V0), not num(V0), dropped
    Case {
        list: &[Number(0), NoNumber(0)],
        keep: &[],
        wanted: Wanted::Lists(&[]),
    },
    // V0 #< 0, not num(V0): no valuation, but that is seen only where the list sorts V0 as a number.
    Case {
        list: &[Compared(&[(0, 1)], 0, Lt), NoNumber(0)],
        keep: &[0],
        wanted: Wanted::Lists(&[&[Compared(&[(0, 1)], 0, Lt), NoNumber(0)]]),
    },
    // V1 \= a, V1 \= V0, not num(V1): some name for V1 meets these.
    Case {
        list: &[NoShape(1, 2, 0), Differ(V(1), V(0)), NoNumber(1)],
        keep: &[0],
        wanted: Wanted::Lists(&[&[]]),
    },
    // f(V1) \= f(V1)
    Case {
        list: &[Differ(F(4, &[V(1)]), F(4, &[V(1)]))],
        keep: &[],
        wanted: Wanted::Lists(&[]),
    },
    // num(V1), V0 \= f(V1): a dropped number in a part that is not between numbers.
    Case {
        list: &[Number(1), Differ(V(0), F(4, &[V(1)]))],
        keep: &[0],
        wanted: Wanted::Many,
    },
    // num(V1), g(V0, V1) \= g(a, 3): two parts, of which one is between numbers.
    Case {
        list: &[
            Number(1),
            Differ(F(5, &[V(0), V(1)]), F(5, &[F(2, &[]), N(3)])),
        ],
        keep: &[0],
        wanted: Wanted::Lists(&[&[Differ(V(0), F(2, &[]))], &[], &[]]),
    },
    // 2^126*V0+3*V1-1 #= 0, 5*V0-V1-2 #= 0: their sum without V0 is too large.
    Case {
        list: &[
            Number(0),
            Number(1),
            Compared(
                &[(0, 85070591730234615865843651857942052864), (1, 3)],
                -1,
                Eq,
            ),
            Compared(&[(0, 5), (1, -1)], -2, Eq),
        ],
        keep: &[1],
        wanted: Wanted::TooLarge,
    },
];

fn is_same(alloc: Global, found: &Con, wanted: &Con) -> Result<bool, Fail> {
    match (found, wanted) {
        (Con::Neq(a, b), Con::Neq(c, d)) => Ok(same(alloc, a, c)? && same(alloc, b, d)?),
        (Con::NotShape(x, f, n), Con::NotShape(y, g, m)) => Ok(x == y && f == g && n == m),
        (Con::Num(a), Con::Num(b)) => Ok(same(alloc, a, b)?),
        (Con::NotNum(a), Con::NotNum(b)) => Ok(same(alloc, a, b)?),
        (Con::Row(p), Con::Row(q)) => Ok(p.is_same(q)),
        _ => Ok(false),
    }
}

fn is_list(alloc: Global, found: &[Con], wanted: &[Told]) -> Result<bool, Fail> {
    let wanted = constraints(alloc, wanted)?;
    let wanted = wanted.as_slice();
    if found.len() != wanted.len() {
        return Ok(false);
    }
    for (place, con) in found.iter().enumerate() {
        if !is_same(alloc, con, &wanted[place])? {
            return Ok(false);
        }
    }
    Ok(true)
}

fn are_lists(alloc: Global, found: &ConLists, wanted: &[&[Told]]) -> Result<bool, Fail> {
    if found.len() != wanted.len() {
        return Ok(false);
    }
    for (place, list) in found.as_slice().iter().enumerate() {
        if !is_list(alloc, list.as_slice(), wanted[place])? {
            return Ok(false);
        }
    }
    Ok(true)
}

fn is_wanted(
    alloc: Global,
    found: &Result<Projected, LinErr>,
    wanted: &Wanted,
) -> Result<bool, Fail> {
    match (found, wanted) {
        (Ok(Projected::Alternatives(lists)), Wanted::Lists(all)) => are_lists(alloc, lists, all),
        (Ok(Projected::Alternatives(lists)), Wanted::Count(count)) => Ok(lists.len() == *count),
        (Ok(Projected::TooMany), Wanted::Many) => Ok(true),
        (Err(LinErr::Overflow), Wanted::TooLarge) => Ok(true),
        _ => Ok(false),
    }
}

fn kept(alloc: Global, keep: &[u64]) -> Result<VarList, Fail> {
    let mut all: VarList = Sequence::new(alloc);
    for x in keep {
        all.push(*x)?;
    }
    Ok(all)
}

fn passes(alloc: Global, case: &Case) -> Result<bool, Fail> {
    let list = constraints(alloc, case.list)?;
    let keep = kept(alloc, case.keep)?;
    is_wanted(alloc, &project(&list, &keep), &case.wanted)
}

/// Whether each list projects as its case says.
fn all_pass(alloc: Global, cases: &[Case]) -> Result<bool, Fail> {
    for case in cases {
        if !passes(alloc, case)? {
            return Ok(false);
        }
    }
    Ok(true)
}

#[test]
fn lists_project(rt: HostRuntime) -> Result<(), Fail> {
    assert!(rt; all_pass(rt.alloc(), CASES.as_slice())?);
    assert!(rt; all_pass(rt.alloc(), FURTHER_CASES.as_slice())?);
    assert!(rt; all_pass(rt.alloc(), LAST_CASES.as_slice())?);
    Ok(())
}
