//! Small programs, whose odd loops, levels and signs were found by hand.
use scasp_graph::analyse;
use scasp_name::Memory;
use scasp_nmr::{CheckItem, checks};
use scasp_syntax::PredMaps;
use scasp_test_samples::{
    Name, P, P_OF_C, Q, Q_OF_C, R, R_OF_C, Rule, S, S_OF_C, T, U, map_of, program,
};
use std::alloc::Global;
use std::process::Abort;
use std::test::Fail;

/// A program, its odd rules, the level of each predicate and whether its sign is `+`, and the clauses that are
/// checked, each with whether it has a head.
struct Sample<'a> {
    rules: &'a [Rule<'a>],
    odd: &'a [u64],
    map: &'a [(Name, u64, bool)],
    checks: &'a [(u64, bool)],
}

const SAMPLES: &[Sample] = &[
    // p :- not p. q.
    Sample {
        rules: &[(Some(P), &[(false, P)]), (Some(Q), &[])],
        odd: &[1],
        map: &[(P, 0, true), (Q, 0, true)],
        checks: &[(1, true)],
    },
    // p :- not q, r. q :- not r. r :- p.
    Sample {
        rules: &[
            (Some(P), &[(false, Q), (true, R)]),
            (Some(Q), &[(false, R)]),
            (Some(R), &[(true, P)]),
        ],
        odd: &[],
        map: &[(P, 0, true), (Q, 0, false), (R, 0, true)],
        checks: &[],
    },
    // p :- not q. q :- not p.
    Sample {
        rules: &[(Some(P), &[(false, Q)]), (Some(Q), &[(false, P)])],
        odd: &[],
        map: &[(P, 0, true), (Q, 0, false)],
        checks: &[],
    },
    // p :- not r. r :- s. s.
    Sample {
        rules: &[
            (Some(P), &[(false, R)]),
            (Some(R), &[(true, S)]),
            (Some(S), &[]),
        ],
        odd: &[],
        map: &[(P, 2, true), (R, 1, true), (S, 0, true)],
        checks: &[],
    },
    // p :- q, not r. q. r.
    Sample {
        rules: &[
            (Some(P), &[(true, Q), (false, R)]),
            (Some(Q), &[]),
            (Some(R), &[]),
        ],
        odd: &[],
        map: &[(P, 1, true), (Q, 0, true), (R, 0, true)],
        checks: &[],
    },
    // p :- q, not s. q :- not r. r :- not q. s :- not t. t :- not s. u :- p, s.
    Sample {
        rules: &[
            (Some(P), &[(true, Q), (false, S)]),
            (Some(Q), &[(false, R)]),
            (Some(R), &[(false, Q)]),
            (Some(S), &[(false, T)]),
            (Some(T), &[(false, S)]),
            (Some(U), &[(true, P), (true, S)]),
        ],
        odd: &[],
        map: &[
            (P, 1, true),
            (Q, 0, true),
            (S, 0, true),
            (R, 0, false),
            (T, 0, false),
            (U, 2, true),
        ],
        checks: &[],
    },
    // p :- q. q :- r, s. r :- not q. s :- p. The odd walk p, q, r, q, s, p passes q twice.
    Sample {
        rules: &[
            (Some(P), &[(true, Q)]),
            (Some(Q), &[(true, R), (true, S)]),
            (Some(R), &[(false, Q)]),
            (Some(S), &[(true, P)]),
        ],
        odd: &[1, 2, 3, 4],
        map: &[(P, 0, true), (Q, 0, true), (R, 0, true), (S, 0, true)],
        checks: &[(1, true), (2, true), (3, true), (4, true)],
    },
    // p :- q. q :- p, not q. r :- p. s :- p, t. t :- s. The first rule is odd by the second alone.
    Sample {
        rules: &[
            (Some(P), &[(true, Q)]),
            (Some(Q), &[(true, P), (false, Q)]),
            (Some(R), &[(true, P)]),
            (Some(S), &[(true, P), (true, T)]),
            (Some(T), &[(true, S)]),
        ],
        odd: &[1, 2],
        map: &[
            (P, 0, true),
            (Q, 0, true),
            (R, 1, true),
            (S, 1, true),
            (T, 1, true),
        ],
        checks: &[(1, true), (2, true)],
    },
];

const FURTHER_SAMPLES: &[Sample] = &[
    // r :- not p. p :- not q. q :- r. :- q, s. Denials make no edges.
    Sample {
        rules: &[
            (Some(R), &[(false, P)]),
            (Some(P), &[(false, Q)]),
            (Some(Q), &[(true, R)]),
            (None, &[(true, Q), (true, S)]),
        ],
        odd: &[],
        map: &[(R, 0, true), (P, 0, false), (Q, 0, true), (S, 0, true)],
        checks: &[(4, false)],
    },
    // p :- q. :- p, r. q :- p, not q. r :- p. :- q. s :- not t. t :- not s.
    Sample {
        rules: &[
            (Some(P), &[(true, Q)]),
            (None, &[(true, P), (true, R)]),
            (Some(Q), &[(true, P), (false, Q)]),
            (Some(R), &[(true, P)]),
            (None, &[(true, Q)]),
            (Some(S), &[(false, T)]),
            (Some(T), &[(false, S)]),
        ],
        odd: &[1, 3],
        map: &[
            (P, 0, true),
            (Q, 0, true),
            (R, 1, true),
            (S, 0, true),
            (T, 0, false),
        ],
        checks: &[(1, true), (2, false), (3, true), (5, false)],
    },
    // p :- q, r. r :- q. q.
    Sample {
        rules: &[
            (Some(P), &[(true, Q), (true, R)]),
            (Some(R), &[(true, Q)]),
            (Some(Q), &[]),
        ],
        odd: &[],
        map: &[(P, 2, true), (Q, 0, true), (R, 1, true)],
        checks: &[],
    },
    // q :- p. p :- not r. r :- not p. Here r is the contrary of an assumption p.
    Sample {
        rules: &[
            (Some(Q), &[(true, P)]),
            (Some(P), &[(false, R)]),
            (Some(R), &[(false, P)]),
        ],
        odd: &[],
        map: &[(Q, 1, true), (P, 0, true), (R, 0, false)],
        checks: &[],
    },
    // p(c) :- not q(c). q(c). p.
    Sample {
        rules: &[
            (Some(P_OF_C), &[(false, Q_OF_C)]),
            (Some(Q_OF_C), &[]),
            (Some(P), &[]),
        ],
        odd: &[],
        map: &[(P_OF_C, 1, true), (Q_OF_C, 0, true), (P, 0, true)],
        checks: &[],
    },
    // p :- not r(c). r(c) :- s(c). s(c).
    Sample {
        rules: &[
            (Some(P), &[(false, R_OF_C)]),
            (Some(R_OF_C), &[(true, S_OF_C)]),
            (Some(S_OF_C), &[]),
        ],
        odd: &[],
        map: &[(P, 2, true), (R_OF_C, 1, true), (S_OF_C, 0, true)],
        checks: &[],
    },
];

fn test_map(
    rt: &impl Abort,
    alloc: Global,
    map: &PredMaps,
    entries: &[(Name, u64, bool)],
) -> Result<(), Memory> {
    let wanted = map_of(alloc, entries)?;
    assert_eq!(rt; map.as_slice(), wanted.as_slice());
    Ok(())
}

/// Whether these are the items of the clauses.
fn are_items(items: &[CheckItem], clauses: &[(u64, bool)]) -> bool {
    items.len() == clauses.len()
        && items.iter().zip(clauses).all(|(item, (clause, head))| {
            item.clause == *clause && item.head == *head
        })
}

fn test_sample(rt: &impl Abort, alloc: Global, sample: &Sample) -> Result<(), Memory> {
    let program = program(alloc, sample.rules, &[])?;
    let analysis = analyse(alloc, &program)?;
    assert_eq!(rt; analysis.odd_rules.as_slice(), sample.odd);
    test_map(rt, alloc, &analysis.map, sample.map)?;
    let items = checks(alloc, &program, &analysis)?;
    assert!(rt; are_items(items.as_slice(), sample.checks));
    Ok(())
}

#[test]
fn programs_have_these_odd_rules_levels_signs_and_checks(rt: HostRuntime) -> Result<(), Fail> {
    for sample in SAMPLES {
        test_sample(&rt, rt.alloc(), sample)?;
    }
    for sample in FURTHER_SAMPLES {
        test_sample(&rt, rt.alloc(), sample)?;
    }
    Ok(())
}
