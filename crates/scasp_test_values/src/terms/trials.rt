//! The trial program.
use scasp_gen::trial_program;
use std::test::Fail;

#[test]
fn two_nodes(rt: HostRuntime) -> Result<(), Fail> {
    let text = trial_program(rt.alloc(), 2)?;
    let wanted =
        "node(1).\nnode(2).\nin(X) :- node(X), not out(X).\nout(X) :- node(X), not in(X).\nall(0).\nall(K) :- K #> 0, in(K), J #= K-1, all(J).\n?- all(2).\n";
    assert!(rt; text.as_slice() == wanted.as_bytes());
    Ok(())
}
