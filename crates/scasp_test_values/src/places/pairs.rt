//! Lists of pairs.
use crate::places::made::p_of;
use scasp_disjoint::{Saying, pair_list};
use scasp_lines_places::Chain;
use scasp_list::Memory;
use scasp_syntax::{Con, Cons, Term};
use std::alloc::Global;
use std::test::Fail;

/// A literal p(V0, V1).
fn saying(alloc: Global, at: u64, positive: bool) -> Result<Saying, Memory> {
    Ok(Saying {
        at,
        positive,
        atom: p_of(alloc, 0, 1)?,
        opened: Chain::new(),
    })
}

fn list_of_pair(alloc: Global) -> Result<Cons, Memory> {
    let first = saying(alloc, 1, true)?;
    let second = saying(alloc, 2, false)?;
    pair_list(alloc, 1, &[], &first, &second)
}

/// The free variable 0 stays, and the other one of the second atom is raised above the first.
#[test]
fn the_second_is_renamed(rt: HostRuntime) -> Result<(), Fail> {
    let list = list_of_pair(rt.alloc())?;
    assert_eq!(rt; list.len(), 2);
    assert!(rt; matches!(list.get(0), Some(Con::Eq(Term::Var(0), Term::Var(0)))));
    assert!(rt; matches!(list.get(1), Some(Con::Eq(Term::Var(1), Term::Var(3)))));
    Ok(())
}
