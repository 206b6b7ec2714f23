//! The place that is asked for.
ghost use Rattle.std.specs.Prelude.{◌≡◌, Some, None, IfOk, IsErrOf, map, string_bytes};
ghost use Rattle.scasp_view_top.specs.Words.Places.{at_of, place_of};

use scasp_command_words::{Word, WordErr, number_between};
use std::alloc::Global;

/// The greatest number that is written with ten digits.
const MOST_BYTE: u64 = 9_999_999_999;

/// The words ask for the line and the column of this byte of a file, the first being 0.
#[derive(Debug, Drop)]
pub struct Place {
    pub file: Word,
    pub byte: u64,
}

/// What a file behind `at` asks for, with the words behind it: a byte.
fn place_behind(alloc: Global, file: &str, words: &[String]) -> Result<Place, WordErr>
    ensures ok { IfOk result (λ place. place_of file.now (map string_bytes words.now) ≡ Some place) }
    ensures usage { IsErrOf result WordErr.Usage → place_of file.now (map string_bytes words.now) ≡ None }
{
    let [byte] = words else {
        return Err(WordErr::Usage);
    };
    let Some(byte) = number_between(0, MOST_BYTE, byte.as_str()) else {
        return Err(WordErr::Usage);
    };
    Ok(Place {
        file: Word::from_text(alloc, file)?,
        byte,
    })
}

/// What the words behind `at` ask for.
pub(crate) fn at_words(alloc: Global, words: &[String]) -> Result<Place, WordErr>
    ensures ok { IfOk result (λ place. at_of (map string_bytes words.now) ≡ Some place) }
    ensures usage { IsErrOf result WordErr.Usage → at_of (map string_bytes words.now) ≡ None }
{
    match words {
        [] => Err(WordErr::Usage),
        [file, behind @ ..] => place_behind(alloc, file.as_str(), behind),
    }
}
