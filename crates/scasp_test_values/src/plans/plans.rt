//! The rules of the predicates of a small program.
use scasp_dual::{Plan, plan};
use scasp_syntax::FlatItem;
use scasp_test_samples::{Literal, Name, P, Q, R, Rule, S, program};
use std::test::Fail;

/// p :- not q, r. q :- not r. r :- p. :- s. p.
const RULES: &[Rule] = &[
    (Some(P), &[(false, Q), (true, R)]),
    (Some(Q), &[(false, R)]),
    (Some(R), &[(true, P)]),
    (None, &[(true, S)]),
    (Some(P), &[]),
];

/// Each predicate, with the numbers and the bodies of its rules.
const PLANS: &[(Name, &[(u64, &[Literal])])] = &[
    (P, &[(1, &[(false, Q), (true, R)]), (5, &[])]),
    (Q, &[(2, &[(false, R)])]),
    (R, &[(3, &[(true, P)])]),
    (S, &[]),
];

/// Whether the plan is of this predicate, and its rules have these numbers and literals.
fn is_planned(plan: &Plan, name: Name, rules: &[(u64, &[Literal])]) -> bool {
    plan.pred.name.place() == name.place
        && plan.rules.len() == rules.len()
        && plan.rules.as_slice().iter().zip(rules).all(|(plan, (rule, literals))| {
            plan.rule == *rule && are_literals(plan.body.as_slice(), literals)
        })
}

fn are_literals(items: &[FlatItem], literals: &[Literal]) -> bool {
    items.len() == literals.len()
        && items.iter().zip(literals).all(|(item, (positive, name))| match item {
            FlatItem::Call(lit) => {
                lit.positive == *positive && lit.atom.name.place() == name.place
            }
            FlatItem::Test(_) => false,
        })
}

#[test]
fn each_predicate_has_its_rules(rt: HostRuntime) -> Result<(), Fail> {
    let program = program(rt.alloc(), RULES, &[])?;
    let plans = plan(rt.alloc(), &program)?;
    assert_eq!(rt; plans.len(), PLANS.len());
    for (plan, (name, rules)) in plans.as_slice().iter().zip(PLANS) {
        assert!(rt; is_planned(plan, *name, rules), "at {name:?}");
    }
    Ok(())
}
