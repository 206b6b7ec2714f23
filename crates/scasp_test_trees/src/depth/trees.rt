//! Deep trees: p by its rule `p :- p.`, again and again, and at last the loop to the first line, or the fact.
use scasp_cert::{Cert, Checks, Clashes, Node, Nodes, flat, lines};
use scasp_checker::{CheckErr, Reason, check};
use scasp_list::Memory;
use scasp_search_trees::{Stacks, put_node, put_pos, trees_and_checks};
use scasp_skeleton::skeleton;
use scasp_syntax::{Cons, Terms};
use scasp_test_samples::{P, Rule, literal, map_of, program};
use std::alloc::Global;
use std::test::Fail;

/// Far more lines than calls that go down would be served by the machine's stack.
const LINES: u64 = 100_000;

/// The loop to the first line.
fn looping(alloc: Global) -> Result<Node, Memory> {
    let lit = literal(alloc, (true, P))?;
    Ok(Node::Loop { lit, at: 1 })
}

/// p by its fact.
fn fact(alloc: Global) -> Result<Node, Memory> {
    Ok(Node::Pos {
        atom: literal(alloc, (true, P))?.atom,
        rule: 2,
        terms: Terms::new(alloc),
        children: Nodes::new(alloc),
    })
}

/// The trees of so many lines, each below the one before, and this one below them.
fn nested(alloc: Global, innermost: Node, lines: u64) -> Result<Nodes, Memory> {
    let mut stacks = Stacks::new(alloc);
    put_node(innermost, &mut stacks)?;
    for _line in 1..lines {
        let atom = literal(alloc, (true, P))?.atom;
        put_pos(alloc, atom, 1, Terms::new(alloc), 1, &mut stacks)?;
    }
    let (nodes, _checks) = trees_and_checks(alloc, stacks)?;
    Ok(nodes)
}

fn certificate(alloc: Global, trees: Nodes) -> Result<Cert, Memory> {
    Ok(Cert {
        query: 1,
        terms: Terms::new(alloc),
        given: Cons::new(alloc),
        sample: Terms::new(alloc),
        trees,
        checks: Checks::new(alloc),
        clashes: Clashes::new(alloc),
        map: map_of(alloc, &[(P, 0, true)])?,
    })
}

/// Why the certificate is refused for `p :- p. p. ?- p.`, and at which line; none where it is not.
fn refusal(alloc: Global, cert: &Cert) -> Result<Option<(u64, Reason)>, Memory> {
    let rules: &[Rule] = &[(Some(P), &[(true, P)]), (Some(P), &[])];
    let program = program(alloc, rules, &[&[(true, P)]])?;
    match check(alloc, &program, cert) {
        Ok(_) => Ok(None),
        Err(CheckErr::Refused(refusal)) => Ok(Some((refusal.at, refusal.reason))),
        Err(CheckErr::Memory) => Err(Memory),
    }
}

#[test]
fn a_deep_tree_is_walked_judged_and_freed(rt: HostRuntime) -> Result<(), Fail> {
    let innermost = looping(rt.alloc())?;
    let cert = certificate(rt.alloc(), nested(rt.alloc(), innermost, LINES)?)?;
    assert_eq!(rt; lines(rt.alloc(), &cert)?, LINES);
    assert_eq!(rt; flat(rt.alloc(), &cert)?, true);
    assert_eq!(rt;
        refusal(rt.alloc(), &cert)?,
        Some((LINES, Reason::LoopWithoutNegation))
    );
    Ok(())
}

#[test]
fn a_deep_tree_is_accepted_and_copied(rt: HostRuntime) -> Result<(), Fail> {
    let innermost = fact(rt.alloc())?;
    let cert = certificate(rt.alloc(), nested(rt.alloc(), innermost, LINES)?)?;
    assert_eq!(rt; refusal(rt.alloc(), &cert)?, None);
    let bare = skeleton(rt.alloc(), &cert)?;
    assert_eq!(rt; lines(rt.alloc(), &bare)?, LINES);
    Ok(())
}
