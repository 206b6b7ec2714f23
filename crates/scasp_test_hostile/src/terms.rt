//! Answers with terms of great depth.
use crate::commands::{Command, prints};
use crate::texts::{EMPTY, Pieces, text_of};
use scasp_io::Memory;
use scasp_top::Status;
use std::alloc::Global;
use std::hash::RandomState;
use std::process::Abort;
use std::test::Fail;

/// f of f of .. of a, so deep.
fn term(alloc: Global, depth: u64) -> Result<String, Memory> {
    let pieces = Pieces {
        piece: "f(",
        times: depth,
        middle: "a",
        other: ")",
        ..EMPTY
    };
    text_of(alloc, &pieces)
}

/// The answer with such a term to a fact of all terms.
fn answer(alloc: Global, depth: u64) -> Result<String, Memory> {
    let term = term(alloc, depth)?;
    let head = format!(in alloc; "scasp 1\nanswer 1.1 [{term}]\nsample []\ntree\n")?;
    let tree = format!(in alloc; " pos p({term}) rule 1 [{term}]\nmap p/1 0 +\nend\n")?;
    let mut text = head;
    text.push_str(tree.as_str())?;
    Ok(text)
}

/// How deep the term is.
const DEPTHS: &[u64] = &[1, 10_001, 100_000];

/// Whether the check of the answer finds it right.
fn is_right(alloc: Global, keys: RandomState, depth: u64) -> Result<bool, Memory> {
    let text = answer(alloc, depth)?;
    let command = Command {
        words: &["check", "p", "a"],
        program: "p(X). ?- p(Y).",
        answers: text.as_str(),
    };
    prints(
        alloc,
        keys,
        &command,
        "1.1 right any\nchecked 1\n",
        Status::Done,
    )
}

fn check_terms(rt: &impl Abort, alloc: Global, keys: RandomState) -> Result<(), Memory> {
    for depth in DEPTHS {
        assert!(rt; is_right(alloc, keys, *depth)?, "of depth {depth}");
    }
    Ok(())
}

#[test]
fn deep_terms_are_right(rt: HostRuntime) -> Result<(), Fail> {
    check_terms(&rt, rt.alloc(), RandomState::new(&rt)?)?;
    Ok(())
}
