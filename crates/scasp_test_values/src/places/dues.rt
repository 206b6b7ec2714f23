//! What is due below a line.
use crate::certificates::certificate;
use crate::places::made::{p_of, rule, two};
use scasp_cert::Nodes;
use scasp_lines_places::{
    Due, Dues, Inside, Place, head_dues, inside_rule, leaf_dues, query_dues, rule_dues, top,
};
use scasp_list::Memory;
use scasp_syntax::{Clauses, Con, Items, Preds, Program, Queries, Query, Term, Terms, VarNames};
use std::alloc::Global;
use std::test::Fail;

/// Whether a node is due for the disequation of two variables.
fn differs(due: Option<&Due>, x: u64, y: u64) -> bool {
    matches!(
        due,
        Some(Due::Fact(Some(Con::Neq(Term::Var(left), Term::Var(right)))))
            if *left == x && *right == y
    )
}

fn dues_of_rule(alloc: Global) -> Result<Dues, Memory> {
    let terms = two(alloc, Term::Var(4), Term::Var(5))?;
    let clause = rule(alloc)?;
    rule_dues(alloc, Some(&clause), &Place::start(9), &terms)
}

/// The items of the rule stand under its terms.
#[test]
fn below_a_rule(rt: HostRuntime) -> Result<(), Fail> {
    let dues = dues_of_rule(rt.alloc())?;
    assert_eq!(rt; dues.len(), 2);
    assert!(rt; matches!(dues.get(0), Some(Due::Goal(_))));
    assert!(rt; differs(dues.get(1), 4, 5));
    Ok(())
}

/// Inside the rule, taken at its own head.
fn inside(alloc: Global) -> Result<Inside, Memory> {
    let head = p_of(alloc, 0, 1)?;
    let clause = rule(alloc)?;
    inside_rule(alloc, Some(&clause), &head, 2, &Place::start(9))
}

fn dues_of_leaf(alloc: Global) -> Result<Dues, Memory> {
    let inside = inside(alloc)?;
    leaf_dues(alloc, &inside.here, &inside.body, 2)
}

fn dues_of_head(alloc: Global) -> Result<Dues, Memory> {
    let inside = inside(alloc)?;
    head_dues(alloc, &inside.here, &inside.body)
}

/// Below a leaf the last item is to be false.
#[test]
fn below_a_leaf(rt: HostRuntime) -> Result<(), Fail> {
    let leaf = dues_of_leaf(rt.alloc())?;
    assert_eq!(rt; leaf.len(), 2);
    assert!(rt; matches!(leaf.get(1), Some(Due::Fact(Some(Con::Eq(_, _))))));
    Ok(())
}

/// Below a head all items and the head are due.
#[test]
fn below_a_head(rt: HostRuntime) -> Result<(), Fail> {
    assert_eq!(rt; dues_of_head(rt.alloc())?.len(), 3);
    Ok(())
}

fn top_of_nothing(alloc: Global) -> Result<u64, Memory> {
    let program = Program {
        clauses: Clauses::new(alloc),
        queries: Queries::new(alloc),
        abducibles: Preds::new(alloc),
    };
    top(&program, &certificate(alloc, Nodes::new(alloc)))
}

/// With no line no universal begins.
#[test]
fn no_universal_begins(rt: HostRuntime) {
    assert_eq!(rt; top_of_nothing(rt.alloc()), Ok(0));
}

fn dues_of_nothing(alloc: Global) -> Result<Dues, Memory> {
    let query = Query {
        body: Items::new(alloc),
        names: VarNames::new(alloc),
    };
    query_dues(alloc, Some(&query), &Terms::new(alloc))
}

/// A query of no item has no due.
#[test]
fn no_due(rt: HostRuntime) -> Result<(), Fail> {
    assert_eq!(rt; dues_of_nothing(rt.alloc())?.len(), 0);
    Ok(())
}
