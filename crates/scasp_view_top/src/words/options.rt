//! The options behind the files.
ghost use Rattle.std.specs.Prelude.{◌≡◌, map, string_bytes};
ghost use Rattle.scasp_view_top.specs.Words.Options as spec;

use scasp_command_words::number_between;

/// The greatest number that is written with ten digits.
const MOST_QUERY: u64 = 9_999_999_999;

/// Which blocks of an answer file are shown, and how.
#[derive(Clone, Copy, Debug, PartialEq, Eq)]
pub struct Options {
    /// Checks are shown whole.
    pub checks: bool,
    /// An answer that was shown before is left out.
    pub once: bool,
    /// Answers to this query alone.
    pub query: Option<u64>,
    /// Blanks alone show how deep a line stands.
    pub plain: bool,
}

/// No option.
const NO_OPTIONS: Options = Options {
    checks: false,
    once: false,
    query: None,
    plain: false,
};

/// The options with this one, where it is one without a number that has not been given yet.
fn with_flag(given: Options, word: &str) -> Option<Options>
    ensures { result ≡ spec.with_flag given word.now }
{
    if word == "--checks" && !given.checks {
        return Some(Options {
            checks: true,
            ..given
        });
    }
    if word == "--once" && !given.once {
        return Some(Options {
            once: true,
            ..given
        });
    }
    if word == "--plain" && !given.plain {
        return Some(Options {
            plain: true,
            ..given
        });
    }
    None
}

/// The options with this query, where none has been given yet.
fn with_query(given: Options, number: &str) -> Option<Options>
    ensures { result ≡ spec.with_query given number.now }
{
    if given.query.is_some() {
        return None;
    }
    let query = Some(number_between(1, MOST_QUERY, number)?);
    Some(Options { query, ..given })
}

/// What has been read: the options, and whether the number of a query has to come next.
#[derive(Clone, Copy)]
pub(crate) struct Taken {
    pub options: Options,
    pub awaits: bool,
}

/// The options with this query, and no number has to come next.
fn with_number(options: Options, number: &str) -> Option<Taken>
    ensures { result ≡ spec.with_number options number.now }
{
    Some(Taken {
        options: with_query(options, number)?,
        awaits: false,
    })
}

/// The options with this word as one, behind which a number has to come where it is `--query`.
fn with_name(options: Options, word: &str) -> Option<Taken>
    ensures { result ≡ spec.with_name options word.now }
{
    if word == "--query" {
        return Some(Taken {
            options,
            awaits: true,
        });
    }
    Some(Taken {
        options: with_flag(options, word)?,
        awaits: false,
    })
}

/// What has been read, with one more word.
fn with_word(taken: Taken, word: &str) -> Option<Taken>
    ensures { result ≡ spec.with_word taken word.now }
{
    if taken.awaits {
        with_number(taken.options, word)
    } else {
        with_name(taken.options, word)
    }
}

/// What has been read, with these words.
fn with_words(taken: Taken, words: &[String]) -> Option<Taken>
    ensures { result ≡ spec.with_words taken (map string_bytes words.now) }
{
    match words {
        [] => Some(taken),
        [word, more @ ..] => with_words(with_word(taken, word.as_str())?, more),
    }
}

/// The options that the words spell.
pub(crate) fn options_in(words: &[String]) -> Option<Options>
    ensures { result ≡ spec.options_in (map string_bytes words.now) }
{
    let none = Taken {
        options: NO_OPTIONS,
        awaits: false,
    };
    let taken = with_words(none, words)?;
    if taken.awaits {
        None
    } else {
        Some(taken.options)
    }
}
