//! Maps that a program keeps, or breaks at a clause.
use scasp_graph::{MapFault, map_holds};
use scasp_name::Memory;
use scasp_test_samples::{Name, P, Q, R, Rule, map_of, numbers, program};
use std::alloc::Global;
use std::process::Abort;
use std::test::Fail;

/// Covered clauses, a map's entries, and the first clause that breaks it.
type Tried<'a> = (&'a [u64], &'a [(Name, u64, bool)], Option<u64>);

/// p :- not q. q :- not p.
const EVEN: (&[Rule], &[Tried]) = (
    &[(Some(P), &[(false, Q)]), (Some(Q), &[(false, P)])],
    &[
        (&[], &[(P, 0, true), (Q, 0, false)], None),
        (&[], &[], Some(1)),
        (&[], &[(Q, 0, true)], Some(1)),
        (&[1], &[], Some(2)),
        (&[2, 1], &[], None),
        (&[], &[(P, 1, true), (P, 0, true), (Q, 0, false)], Some(2)),
    ],
);

/// p :- p, q. q. :- p. r :- not q.
const DENIED: (&[Rule], &[Tried]) = (
    &[
        (Some(P), &[(true, P), (true, Q)]),
        (Some(Q), &[]),
        (None, &[(true, P)]),
        (Some(R), &[(false, Q)]),
    ],
    &[
        (&[], &[(R, 1, true)], Some(3)),
        (&[3], &[(R, 1, true)], None),
        (&[3], &[], Some(4)),
        (&[3], &[(Q, 1, true)], Some(1)),
        (&[3], &[(Q, 0, false)], Some(1)),
    ],
);

fn test_maps(
    rt: &impl Abort,
    alloc: Global,
    rules: &[Rule],
    tried: &[Tried],
) -> Result<(), Memory> {
    let program = program(alloc, rules, &[])?;
    for (covered, entries, fault) in tried {
        let covered = numbers(alloc, covered)?;
        let map = map_of(alloc, entries)?;
        let expected = match fault {
            None => Ok(()),
            Some(rule) => Err(MapFault { rule: *rule }),
        };
        assert_eq!(rt; map_holds(&program, &covered, &map), expected);
    }
    Ok(())
}

#[test]
fn maps_hold_or_name_the_first_clause(rt: HostRuntime) -> Result<(), Fail> {
    for (rules, tried) in [EVEN, DENIED] {
        test_maps(&rt, rt.alloc(), rules, tried)?;
    }
    Ok(())
}
