//! The options of a run.
ghost use Rattle.std.specs.Prelude.{◌≡◌, map, string_bytes};
ghost use Rattle.scasp_command_words.specs.Options as spec;

use crate::format::{Format, format_of};
use crate::number::number_between;

/// The largest budget, and the most answers that are asked for by their number.
const MOST: u64 = 1_000_000_000;

/// The options of a run that have been given.
#[derive(Clone, Copy)]
pub(crate) struct Options {
    pub budget: Option<u64>,
    pub answers: Option<u64>,
    pub format: Option<Format>,
}

/// The options with this one, where it is one that has not been given yet.
fn with_option(given: Options, name: &str, number: &str) -> Option<Options>
    ensures { result ≡ spec.with_option given name.now number.now }
{
    if name == "--budget" && given.budget.is_none() {
        let budget = Some(number_between(1, MOST, number)?);
        return Some(Options { budget, ..given });
    }
    if name == "--answers" && given.answers.is_none() {
        let answers = Some(number_between(0, MOST, number)?);
        return Some(Options { answers, ..given });
    }
    if name == "--format" && given.format.is_none() {
        let format = Some(format_of(number)?);
        return Some(Options { format, ..given });
    }
    None
}

/// The options with those that the words spell, each a name and a number.
pub(crate) fn with_options(given: Options, words: &[String]) -> Option<Options>
    ensures { result ≡ spec.with_options given (map string_bytes words.now) }
{
    match words {
        [] => Some(given),
        [_] => None,
        [name, number, more @ ..] => {
            with_options(with_option(given, name.as_str(), number.as_str())?, more)
        }
    }
}
