//! Programs over the first numbers, with the instances that are left.
use crate::texts::{numbers, read, text_of};
use scasp_ground::ground;
use scasp_name::Names;
use scasp_syntax::Program;
use scasp_tables::Domain;
use std::alloc::Global;
use std::hash::RandomState;
use std::test::Fail;

/// A program, how many numbers there are, and the instances.
struct Row {
    program: &'static str,
    members: u64,
    instances: &'static str,
}

const ROWS: [Row; 4] = [
    Row {
        program: "p(X) :- not q(X). q(0).",
        members: 2,
        instances: "p 0, not q 0.p 1, not q 1.q 0.",
    },
    Row {
        program: "p(X,Y) :- X \\= Y.",
        members: 2,
        instances: "p 0 1.p 1 0.",
    },
    Row {
        program: "p. q(X).",
        members: 0,
        instances: "p.",
    },
    Row {
        program: ":- p(X), not q(X). p(f(X)).",
        members: 1,
        instances: ", p 0, not q 0.p f(0).",
    },
];

fn are_instances(
    alloc: Global,
    program: &Program,
    names: &Names,
    domain: &Domain,
    instances: &str,
) -> Result<bool, Fail> {
    let made = ground(alloc, program, domain)?;
    let text = text_of(alloc, names, &made)?;
    Ok(text.as_slice() == instances.as_bytes())
}

fn has_instances(alloc: Global, row: &Row, keys: RandomState) -> Result<bool, Fail> {
    let (program, names) = read(alloc, row.program, keys)?;
    let domain = numbers(alloc, row.members, keys)?;
    are_instances(alloc, &program, &names, &domain, row.instances)
}

#[test]
fn grounds(rt: HostRuntime) -> Result<(), Fail> {
    let keys = RandomState::new(&rt)?;
    for row in &ROWS {
        assert!(rt; has_instances(rt.alloc(), row, keys)?);
    }
    Ok(())
}
