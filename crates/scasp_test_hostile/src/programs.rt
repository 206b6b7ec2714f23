//! Programs with long lists.
use crate::commands::{Command, prints};
use crate::texts::{EMPTY, Pieces, text_of};
use scasp_io::Memory;
use scasp_top::Status;
use std::alloc::Global;
use std::hash::RandomState;
use std::process::Abort;
use std::test::Fail;

/// A command on a program with a long list, and what is printed for it.
#[derive(Clone, Copy)]
struct Case {
    words: &'static [&'static str],
    printed: &'static str,
}

/// The answers that are checked.
const ANSWERS: &str =
    "scasp 1\nanswer 1.1 []\nsample []\ntree\n pos q rule 2 []\nmap p/1 0 +\nmap q/0 0 +\nend\n% domain any\nstopped 1\n";

/// A fact with a list of 100,000 elements, which the query is not about.
const LIST: Pieces = Pieces {
    before: "p([a",
    piece: ",a",
    times: 99_999,
    behind: "]). q. ?- q.",
    ..EMPTY
};

static CASES: [Case; 2] = [
    Case {
        words: &["run", "p"],
        printed: ANSWERS,
    },
    Case {
        words: &["check", "p", "a"],
        printed: "1.1 right any\nchecked 1\n",
    },
];

/// Whether the command prints what it should, and ends well.
fn is_told(alloc: Global, keys: RandomState, case: &Case) -> Result<bool, Memory> {
    let program = text_of(alloc, &LIST)?;
    let command = Command {
        words: case.words,
        program: program.as_str(),
        answers: ANSWERS,
    };
    prints(alloc, keys, &command, case.printed, Status::Done)
}

fn check_cases(rt: &impl Abort, alloc: Global, keys: RandomState) -> Result<(), Memory> {
    for (number, case) in CASES.iter().enumerate() {
        assert!(rt; is_told(alloc, keys, case)?, "at {number}");
    }
    Ok(())
}

#[test]
fn long_programs_are_told(rt: HostRuntime) -> Result<(), Fail> {
    check_cases(&rt, rt.alloc(), RandomState::new(&rt)?)?;
    Ok(())
}
