//! Lists of atoms that are tried as models.
use crate::texts::{atoms_in, numbers, read};
use scasp_ground::ground;
use scasp_model::{AtomList, GroundProgram};
use scasp_syntax::Program;
use std::alloc::Global;
use std::hash::RandomState;
use std::test::Fail;

/// A program, how many numbers there are, facts that are tried as a model, and whether they are stable.
struct Row {
    program: &'static str,
    members: u64,
    atoms: &'static str,
    is_stable: bool,
}

const NEGATIONS: [Row; 4] = [
    Row {
        program: "p(X) :- not q(X). q(0).",
        members: 2,
        atoms: "p(1). q(0).",
        is_stable: true,
    },
    Row {
        program: "p(X) :- not q(X). q(0).",
        members: 2,
        atoms: "q(0).",
        is_stable: false,
    },
    Row {
        program: "p(X) :- not q(X). q(X) :- not p(X).",
        members: 2,
        atoms: "p(0). q(1).",
        is_stable: true,
    },
    Row {
        program: "p(X) :- not q(X). q(X) :- not p(X). :- p(X), not q(X).",
        members: 2,
        atoms: "p(0). q(1).",
        is_stable: false,
    },
];

const CHAINS: [Row; 4] = [
    Row {
        program: "e(0,1). e(1,2). r(0). r(Y) :- r(X), e(X,Y).",
        members: 3,
        atoms: "e(0,1). e(1,2). r(0). r(1). r(2).",
        is_stable: true,
    },
    Row {
        program: "e(0,1). e(1,2). r(0). r(Y) :- r(X), e(X,Y).",
        members: 3,
        atoms: "e(0,1). e(1,2). r(0). r(1).",
        is_stable: false,
    },
    Row {
        program: "p :- q. q :- p. r.",
        members: 0,
        atoms: "p. q. r.",
        is_stable: false,
    },
    Row {
        program: "p :- q, q. q. r :- p, q, p.",
        members: 0,
        atoms: "r. q. p. q.",
        is_stable: true,
    },
];

fn are_told(
    alloc: Global,
    made: &GroundProgram,
    atoms: &AtomList,
    is_stable: bool,
    keys: RandomState,
) -> Result<bool, Fail> {
    let by_rounds = scasp_model::is_stable(alloc, made, atoms)?;
    let by_worklist = scasp_closure::is_stable(alloc, made, atoms, keys)?;
    Ok(by_rounds == is_stable && by_worklist == is_stable)
}

fn is_told_of(
    alloc: Global,
    program: &Program,
    atoms: &AtomList,
    row: &Row,
    keys: RandomState,
) -> Result<bool, Fail> {
    let domain = numbers(alloc, row.members, keys)?;
    let made = ground(alloc, program, &domain)?;
    are_told(alloc, &made, atoms, row.is_stable, keys)
}

fn is_told(alloc: Global, row: &Row, keys: RandomState) -> Result<bool, Fail> {
    let (program, names) = read(alloc, row.program, keys)?;
    let atoms = atoms_in(alloc, row.atoms, names)?;
    is_told_of(alloc, &program, &atoms, row, keys)
}

#[test]
fn tells_by_what_is_denied(rt: HostRuntime) -> Result<(), Fail> {
    let keys = RandomState::new(&rt)?;
    for row in &NEGATIONS {
        assert!(rt; is_told(rt.alloc(), row, keys)?);
    }
    Ok(())
}

#[test]
fn tells_by_what_is_founded(rt: HostRuntime) -> Result<(), Fail> {
    let keys = RandomState::new(&rt)?;
    for row in &CHAINS {
        assert!(rt; is_told(rt.alloc(), row, keys)?);
    }
    Ok(())
}
