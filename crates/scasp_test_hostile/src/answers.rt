//! Answers with terms of great depth to a query without variables, which are refused.
use crate::commands::{Command, prints};
use crate::texts::{Pieces, text_of};
use scasp_io::Memory;
use scasp_top::Status;
use std::alloc::Global;
use std::hash::RandomState;
use std::process::Abort;
use std::test::Fail;

/// What stands on the sides of the term in an answer to one fact.
const ANSWER: Pieces = Pieces {
    before: "scasp 1\nanswer 1.1 [",
    piece: "f(",
    times: 100_000,
    middle: "a",
    other: ")",
    behind: "]\nsample []\ntree\n pos p rule 1 []\nend\n",
};

/// The term nests in its last argument, and in the first of two.
static FILES: [Pieces; 2] = [
    ANSWER,
    Pieces {
        other: ",b)",
        ..ANSWER
    },
];

/// Whether the check of the file refuses it.
fn is_refused(alloc: Global, keys: RandomState, file: &Pieces) -> Result<bool, Memory> {
    let text = text_of(alloc, file)?;
    let command = Command {
        words: &["check", "p", "a"],
        program: "p. ?- p.",
        answers: text.as_str(),
    };
    let line = "1.1 refused 0 wrong query\nchecked 1\n";
    prints(alloc, keys, &command, line, Status::Refused)
}

fn check_files(rt: &impl Abort, alloc: Global, keys: RandomState) -> Result<(), Memory> {
    for (number, file) in FILES.iter().enumerate() {
        assert!(rt; is_refused(alloc, keys, file)?, "at {number}");
    }
    Ok(())
}

#[test]
fn deep_terms_are_refused(rt: HostRuntime) -> Result<(), Fail> {
    check_files(&rt, rt.alloc(), RandomState::new(&rt)?)?;
    Ok(())
}
