//! Lines that stand at the left edge.
ghost use Rattle.std.specs.Prelude.{◌≡◌, ℕ, List};
ghost use Rattle.scasp_reader_terms.specs.Names.{place_in};
ghost use Rattle.scasp_answers_terms.specs.Tokens.Forms as spec;
ghost use Rattle.scasp_answers_terms.specs.Tokens.Lines as lines;
ghost use Rattle.scasp_answers_terms.specs.Tokens.Readers.{made, number_at, behind_word};
ghost use Rattle.scasp_answers_terms.specs.Tokens.Terms.{list_at};
ghost use Rattle.scasp_answers_terms.specs.Tokens.Constraints.{con_at};
ghost use Rattle.scasp_answers_terms.specs.Tokens.View.{Reads};
ghost use Rattle.scasp_answers_lines.specs.Forms.FirstWords.{text_of};
ghost use Rattle.scasp_answers_lines.specs.declared.forms.first_words.FirstWord.TheVariants as first;
ghost use Rattle.scasp_answers_lines.specs.Forms.View.{line_of, end_of};

use crate::forms::constraints::constraint;
use crate::forms::first_words::{BlockWord, FileWord, FirstWord, first_word};
use crate::forms::line::{End, Line};
use crate::forms::nodes::{case, node};
use crate::forms::predicates::{clash, map};
use crate::forms::reasons::reason;
use scasp_answers_terms::{Cursor, Stop, list};
use scasp_name::Names;
use scasp_syntax::{Con, Terms};
use std::alloc::Global;

/// Takes a blank and a number.
pub fn spaced_number(cursor: &mut Cursor<'_>) -> Result<u128, Stop>
    ensures { Reads (λ n. n) (spec.spaced_at number_at cursor.old) result cursor.new }
{
    cursor.expect(b" ")?;
    cursor.number()
}

/// Takes a blank and a constraint.
pub fn spaced_con(alloc: Global, cursor: &mut Cursor<'_>, names: &Names) -> Result<Con, Stop>
    ensures { Reads (λ c. c) (spec.spaced_at (con_at (place_in names.now)) cursor.old) result cursor.new }
{
    cursor.expect(b" ")?;
    constraint(alloc, cursor, names)
}

/// Takes a blank and a list of terms.
fn spaced_list(alloc: Global, cursor: &mut Cursor<'_>, names: &Names) -> Result<Terms, Stop>
    ensures { Reads (λ ts. ts) (spec.spaced_at (list_at (place_in names.now)) cursor.old) result cursor.new }
{
    cursor.expect(b" ")?;
    list(alloc, cursor, names)
}

/// Takes the version behind `scasp`.
fn header(cursor: &mut Cursor<'_>) -> Result<Line, Stop>
    ensures { Reads line_of (made lines.header_line (spec.spaced_at spec.version_at cursor.old)) result cursor.new }
{
    let version = spaced_number(cursor)?;
    if version != 1 {
        return Err(Stop::NoForm);
    }
    Ok(Line::Header(version))
}

/// Takes the query whose answers end so.
fn ending(end: End, cursor: &mut Cursor<'_>) -> Result<Line, Stop>
    ensures { Reads line_of (made (lines.ending_line (end_of end)) (spec.spaced_at number_at cursor.old)) result cursor.new }
{
    let query = spaced_number(cursor)?;
    Ok(Line::Ending(end, query))
}

/// Takes what stands behind `rejected`.
fn rejected(cursor: &mut Cursor<'_>) -> Result<Line, Stop>
    ensures { Reads line_of (made (λ r. lines.rejected_line r.0.0 r.0.1 r.1.0 r.1.1) (spec.spaced_at spec.rejected_at cursor.old)) result cursor.new }
{
    let query = spaced_number(cursor)?;
    cursor.expect(b".")?;
    let answer = cursor.number()?;
    let at = spaced_number(cursor)?;
    cursor.expect(b" ")?;
    let reason = reason(cursor)?;
    Ok(Line::Rejected(query, answer, at, reason))
}

/// Takes what stands behind `answer`.
fn answer(alloc: Global, cursor: &mut Cursor<'_>, names: &Names) -> Result<Line, Stop>
    ensures { Reads line_of (made (λ r. lines.answer_line r.0.0 r.0.1 r.1) (spec.spaced_at (spec.answer_at (place_in names.now)) cursor.old)) result cursor.new }
{
    let query = spaced_number(cursor)?;
    cursor.expect(b".")?;
    let answer = cursor.number()?;
    let terms = spaced_list(alloc, cursor, names)?;
    Ok(Line::Answer(query, answer, terms))
}

/// Takes what stands behind `given`.
fn given(alloc: Global, cursor: &mut Cursor<'_>, names: &Names) -> Result<Line, Stop>
    ensures { Reads line_of (made lines.given_line (spec.spaced_at (con_at (place_in names.now)) cursor.old)) result cursor.new }
{
    Ok(Line::Given(spaced_con(alloc, cursor, names)?))
}

/// Takes what stands behind `sample`.
fn sample(alloc: Global, cursor: &mut Cursor<'_>, names: &Names) -> Result<Line, Stop>
    ensures { Reads line_of (made lines.sample_line (spec.spaced_at (list_at (place_in names.now)) cursor.old)) result cursor.new }
{
    Ok(Line::Sample(spaced_list(alloc, cursor, names)?))
}

/// Takes what stands behind `check`.
fn check(cursor: &mut Cursor<'_>) -> Result<Line, Stop>
    ensures { Reads line_of (made lines.check_line (spec.spaced_at number_at cursor.old)) result cursor.new }
{
    Ok(Line::Check(spaced_number(cursor)?))
}

/// Takes the rest of a line between blocks, whose first word is this.
fn file_line(word: FileWord, cursor: &mut Cursor<'_>) -> Result<Line, Stop>
    ensures { (place : List ℕ → ℕ) → Reads line_of (behind_word (spec.forms place) (text_of (first.File word)) cursor.old) result cursor.new }
{
    match word {
        FileWord::Scasp => header(cursor),
        FileWord::Ended => ending(End::Ended, cursor),
        FileWord::Stopped => ending(End::Stopped, cursor),
        FileWord::Spent => ending(End::Spent, cursor),
        FileWord::Overflow => ending(End::Overflow, cursor),
        FileWord::Rejected => rejected(cursor),
    }
}

/// The same of a line in a block that is of no tree.
fn block_line(
    alloc: Global,
    word: BlockWord,
    cursor: &mut Cursor<'_>,
    names: &Names,
) -> Result<Line, Stop>
    ensures { Reads line_of (behind_word (spec.forms (place_in names.now)) (text_of (first.Block word)) cursor.old) result cursor.new }
{
    match word {
        BlockWord::Answer => answer(alloc, cursor, names),
        BlockWord::Given => given(alloc, cursor, names),
        BlockWord::Sample => sample(alloc, cursor, names),
        BlockWord::Tree => Ok(Line::Tree),
        BlockWord::Check => check(cursor),
        BlockWord::Clash => clash(alloc, cursor),
        BlockWord::Map => map(alloc, cursor, names),
        BlockWord::End => Ok(Line::End),
    }
}

/// The same of any line.
fn known_line(
    alloc: Global,
    word: FirstWord,
    cursor: &mut Cursor<'_>,
    names: &Names,
) -> Result<Line, Stop>
    ensures { Reads line_of (behind_word (spec.forms (place_in names.now)) (text_of word) cursor.old) result cursor.new }
{
    match word {
        FirstWord::Node(word) => node(alloc, word, cursor, names),
        FirstWord::Case(word) => case(alloc, word, cursor, names),
        FirstWord::Block(word) => block_line(alloc, word, cursor, names),
        FirstWord::File(word) => file_line(word, cursor),
    }
}

/// Takes the rest of a line with this first word, which may be any.
pub fn any_line(
    alloc: Global,
    word: &str,
    cursor: &mut Cursor<'_>,
    names: &Names,
) -> Result<Line, Stop>
    ensures { Reads line_of (behind_word (spec.forms (place_in names.now)) word.now cursor.old) result cursor.new }
{
    match first_word(word) {
        None => Err(Stop::NoForm),
        Some(word) => known_line(alloc, word, cursor, names),
    }
}
