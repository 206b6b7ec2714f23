//! Answer files with trees of great depth.
use crate::commands::{Command, prints};
use scasp_io::Memory;
use scasp_top::Status;
use std::alloc::Global;
use std::hash::RandomState;
use std::process::Abort;
use std::test::Fail;

/// A block of so many lines, each below the one before, and a loop to the first one below them.
fn tree(alloc: Global, lines: u64) -> Result<String, Memory> {
    let mut text = String::from_str(alloc, "scasp 1\nanswer 1.1 []\nsample []\ntree\n")?;
    let mut indent = String::from_str(alloc, " ")?;
    for _ in 0..lines {
        text.push_str(indent.as_str())?;
        text.push_str("pos p rule 1 []\n")?;
        indent.push_str(" ")?;
    }
    text.push_str(indent.as_str())?;
    text.push_str("loop p at 1\nend\n")?;
    Ok(text)
}

/// How many lines, what the check of them prints, and the status.
const TREES: &[(u64, &str, Status)] = &[
    (
        1,
        "1.1 refused 2 loop without negation\nchecked 1\n",
        Status::Refused,
    ),
    (
        5_000,
        "1.1 refused 5001 loop without negation\nchecked 1\n",
        Status::Refused,
    ),
    (
        10_001,
        "1.1 refused 10002 loop without negation\nchecked 1\n",
        Status::Refused,
    ),
];

/// Whether the check of so many lines prints this, and ends so.
fn is_told(
    alloc: Global,
    keys: RandomState,
    lines: u64,
    printed: &str,
    status: Status,
) -> Result<bool, Memory> {
    let text = tree(alloc, lines)?;
    let command = Command {
        words: &["check", "p", "a"],
        program: "p :- p. ?- p.",
        answers: text.as_str(),
    };
    prints(alloc, keys, &command, printed, status)
}

fn check_trees(rt: &impl Abort, alloc: Global, keys: RandomState) -> Result<(), Memory> {
    for (lines, printed, status) in TREES {
        assert!(rt;
            is_told(alloc, keys, *lines, printed, *status)?,
            "of {lines} lines"
        );
    }
    Ok(())
}

#[test]
fn deep_trees_are_told(rt: HostRuntime) -> Result<(), Fail> {
    check_trees(&rt, rt.alloc(), RandomState::new(&rt)?)?;
    Ok(())
}
