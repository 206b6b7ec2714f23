//! How answers are written.
ghost use Rattle.std.specs.Prelude.{◌≡◌};
ghost use Rattle.scasp_command_words.specs.Options as spec;

/// How the answers of a run are written.
#[derive(Clone, Copy, Debug)]
pub enum Format {
    /// Version 1: each tree stands whole.
    Whole,
    /// Version 2: a subtree that stands twice in a block is written once.
    Shared,
}

/// The format of the version that the word spells.
pub(crate) fn format_of(number: &str) -> Option<Format>
    ensures { result ≡ spec.format_of number.now }
{
    if number == "1" {
        return Some(Format::Whole);
    }
    if number == "2" {
        return Some(Format::Shared);
    }
    None
}
