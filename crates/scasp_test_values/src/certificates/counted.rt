//! A certificate of several forms, made, counted and taken to its skeleton.
use crate::certificates::made::{boxed, certificate, covers, nodes};
use scasp_cert::{Case, Cert, Check, Clash, Node, Nodes, flat, lines};
use scasp_name::Memory;
use scasp_skeleton::skeleton;
use scasp_syntax::{Con, Hint, Term};
use scasp_test_samples::{P, atom, literal};
use std::alloc::Global;
use std::test::Fail;

/// A leaf with a loop below it: two lines.
fn leaf(alloc: Global) -> Result<Case, Memory> {
    let lit = literal(alloc, (false, P))?;
    Ok(Case::Leaf {
        item: 1,
        children: nodes(alloc, Node::Loop { lit, at: 1 })?,
    })
}

fn boxed_leaf(alloc: Global) -> Result<Box<Case>, Memory> {
    boxed(alloc, leaf(alloc)?)
}

/// Two cases, a void one and a leaf: four lines.
fn two_cases(alloc: Global) -> Result<Case, Memory> {
    let first = boxed(alloc, Case::Void { hint: Hint::Terms })?;
    Ok(Case::Split {
        con: Con::Num(Term::Var(0)),
        first,
        second: boxed_leaf(alloc)?,
    })
}

/// A negated atom with one rule, which has two cases.
fn negated(alloc: Global) -> Result<Node, Memory> {
    let atom = atom(alloc, P)?;
    let covers = covers(alloc, 1, two_cases(alloc)?)?;
    Ok(Node::Neg { atom, covers })
}

/// The negated atom twice.
fn trees(alloc: Global) -> Result<Nodes, Memory> {
    let mut trees = nodes(alloc, negated(alloc)?)?;
    trees.push(negated(alloc)?)?;
    Ok(trees)
}

fn push_check(alloc: Global, cert: &mut Cert) -> Result<(), Memory> {
    let children = Nodes::new(alloc);
    let case = Case::Head { children };
    cert.checks.push(Check { clause: 2, case })?;
    cert.clashes.push(Clash {
        first: 1,
        second: 2,
        hint: Hint::Terms,
    })
}

/// The certificate of the trees, with a check and a clash.
fn all_kinds(alloc: Global) -> Result<Cert, Memory> {
    let mut cert = certificate(alloc, trees(alloc)?);
    push_check(alloc, &mut cert)?;
    Ok(cert)
}

#[test]
fn lines_are_counted(rt: HostRuntime) -> Result<(), Fail> {
    let cert = all_kinds(rt.alloc())?;
    assert!(rt; matches!(cert.trees.get(1), Some(Node::Neg { .. })));
    // Twice a literal, a rule and four lines; a check and its case.
    assert_eq!(rt; lines(rt.alloc(), &cert), Ok(14));
    assert_eq!(rt; flat(rt.alloc(), &cert), Ok(true));
    Ok(())
}

fn bare(alloc: Global) -> Result<Cert, Memory> {
    let cert = all_kinds(alloc)?;
    skeleton(alloc, &cert)
}

/// A skeleton has the same lines, and no clash.
#[test]
fn skeletons_are_taken(rt: HostRuntime) -> Result<(), Fail> {
    assert_eq!(rt; all_kinds(rt.alloc())?.clashes.len(), 1);
    let bare = bare(rt.alloc())?;
    assert_eq!(rt; lines(rt.alloc(), &bare), Ok(14));
    assert_eq!(rt; bare.clashes.len(), 0);
    Ok(())
}
