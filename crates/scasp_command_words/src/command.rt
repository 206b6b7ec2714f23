//! Commands.
ghost use Rattle.std.specs.Prelude.{◌≡◌, Some, None, IfOk, IsErrOf, map, string_bytes};
ghost use Rattle.scasp_command_words.specs.Commands.{command_of, run_of, check_of, trial_of, extend_of, recheck_of};

use crate::error::WordErr;
use crate::format::Format;
use crate::number::number_between;
use crate::options::{Options, with_options};
use crate::word::{Word, Words};
use std::alloc::Global;

/// How many calls the search for answers to a query may make where the words do not say.
pub const DEFAULT_BUDGET: u64 = 50_000;

/// How many answers to a query are asked for where the words do not say.
pub const DEFAULT_ANSWERS: u64 = 1;

/// How answers are written where the words do not say.
pub const DEFAULT_FORMAT: Format = Format::Whole;

/// How many nodes a trial program may have.
pub const MOST_NODES: u64 = 1_000;

/// The fewest programs that answers are checked under, one after another.
pub const FEWEST_PROGRAMS: usize = 2;

/// The most programs that answers are checked under, one after another.
pub const MOST_PROGRAMS: usize = 100;

/// What the words ask for.
#[derive(Debug, Drop)]
pub enum Command {
    /// Answers to the queries of a program.
    Run {
        file: Word,
        /// How many calls the search for answers to one query may make.
        budget: u64,
        /// How many answers to each query are asked for; 0 asks for all.
        answers: u64,
        /// How the answers are written.
        format: Format,
    },
    /// Whether the answers in a file are right.
    Check {
        program: Word,
        answers: Word,
    },
    /// The first answer of the trial program of so many nodes.
    Trial {
        n: u32,
    },
    /// A whole model above each answer in a file, over the terms in another.
    Extend {
        program: Word,
        answers: Word,
        domain: Word,
    },
    /// Whether the answers in a file are right under one program after another.
    Recheck {
        answers: Word,
        /// The files of the programs.
        files: Words,
    },
}

/// The command that the words behind `run` are: a file, and options.
fn run_command(alloc: Global, words: &[String]) -> Result<Command, WordErr>
    ensures ok { IfOk result (λ command. run_of (map string_bytes words.now) ≡ Some command) }
    ensures usage { IsErrOf result WordErr.Usage → run_of (map string_bytes words.now) ≡ None }
{
    let [file, options @ ..] = words else {
        return Err(WordErr::Usage);
    };
    let none = Options {
        budget: None,
        answers: None,
        format: None,
    };
    let Some(given) = with_options(none, options) else {
        return Err(WordErr::Usage);
    };
    Ok(Command::Run {
        file: Word::from_text(alloc, file.as_str())?,
        budget: given.budget.unwrap_or(DEFAULT_BUDGET),
        answers: given.answers.unwrap_or(DEFAULT_ANSWERS),
        format: given.format.unwrap_or(DEFAULT_FORMAT),
    })
}

/// The command that the words behind `check` are: a program and answers.
fn check_command(alloc: Global, words: &[String]) -> Result<Command, WordErr>
    ensures ok { IfOk result (λ command. check_of (map string_bytes words.now) ≡ Some command) }
    ensures usage { IsErrOf result WordErr.Usage → check_of (map string_bytes words.now) ≡ None }
{
    match words {
        [program, answers] => Ok(Command::Check {
            program: Word::from_text(alloc, program.as_str())?,
            answers: Word::from_text(alloc, answers.as_str())?,
        }),
        _ => Err(WordErr::Usage),
    }
}

/// The command that the words behind `trial` are: how many nodes.
fn trial_command(words: &[String]) -> Result<Command, WordErr>
    ensures ok { IfOk result (λ command. trial_of (map string_bytes words.now) ≡ Some command) }
    ensures usage { IsErrOf result WordErr.Usage → trial_of (map string_bytes words.now) ≡ None }
{
    let [number] = words else {
        return Err(WordErr::Usage);
    };
    let Some(n) = number_between(1, MOST_NODES, number.as_str()) else {
        return Err(WordErr::Usage);
    };
    Ok(Command::Trial { n: n as u32 })
}

/// The command that the words behind `extend` are: a program, answers and a domain.
fn extend_command(alloc: Global, words: &[String]) -> Result<Command, WordErr>
    ensures ok { IfOk result (λ command. extend_of (map string_bytes words.now) ≡ Some command) }
    ensures usage { IsErrOf result WordErr.Usage → extend_of (map string_bytes words.now) ≡ None }
{
    match words {
        [program, answers, domain] => Ok(Command::Extend {
            program: Word::from_text(alloc, program.as_str())?,
            answers: Word::from_text(alloc, answers.as_str())?,
            domain: Word::from_text(alloc, domain.as_str())?,
        }),
        _ => Err(WordErr::Usage),
    }
}

/// The command that the words behind `recheck` are: answers, and 2 to 100 programs.
fn recheck_command(alloc: Global, words: &[String]) -> Result<Command, WordErr>
    ensures ok { IfOk result (λ command. recheck_of (map string_bytes words.now) ≡ Some command) }
    ensures usage { IsErrOf result WordErr.Usage → recheck_of (map string_bytes words.now) ≡ None }
{
    let [answers, files @ ..] = words else {
        return Err(WordErr::Usage);
    };
    if files.len() < FEWEST_PROGRAMS || files.len() > MOST_PROGRAMS {
        return Err(WordErr::Usage);
    }
    Ok(Command::Recheck {
        answers: Word::from_text(alloc, answers.as_str())?,
        files: Words::from_texts(alloc, files)?,
    })
}

/// The command that the words are.
///
/// # Errors
///
/// `Usage` exactly where the words are no command; `Memory` for want of memory.
pub fn parse_words(alloc: Global, words: &Vec<String>) -> Result<Command, WordErr>
    ensures ok { IfOk result (λ command. command_of (map string_bytes words.now.items) ≡ Some command) }
    ensures usage { IsErrOf result WordErr.Usage → command_of (map string_bytes words.now.items) ≡ None }
{
    match words.as_slice() {
        [word, behind @ ..] if word.as_str() == "run" => run_command(alloc, behind),
        [word, behind @ ..] if word.as_str() == "check" => check_command(alloc, behind),
        [word, behind @ ..] if word.as_str() == "trial" => trial_command(behind),
        [word, behind @ ..] if word.as_str() == "extend" => extend_command(alloc, behind),
        [word, behind @ ..] if word.as_str() == "recheck" => recheck_command(alloc, behind),
        _ => Err(WordErr::Usage),
    }
}
