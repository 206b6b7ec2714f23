//! Lines of trees.
ghost use Rattle.std.specs.Prelude.{◌≡◌};
ghost use Rattle.scasp_reader_terms.specs.Names.{place_in};
ghost use Rattle.scasp_answers_terms.specs.Tokens.Forms as spec;
ghost use Rattle.scasp_answers_terms.specs.Tokens.Constraints.{con_at};
ghost use Rattle.scasp_answers_terms.specs.Tokens.Hints.{hint_at};
ghost use Rattle.scasp_answers_terms.specs.Tokens.Lines as lines;
ghost use Rattle.scasp_answers_terms.specs.Tokens.Readers.{made, number_at, behind_word};
ghost use Rattle.scasp_answers_terms.specs.Tokens.Terms.{atom_at};
ghost use Rattle.scasp_answers_terms.specs.Tokens.View.{Reads};
ghost use Rattle.scasp_answers_lines.specs.Forms.FirstWords.{text_of};
ghost use Rattle.scasp_answers_lines.specs.declared.forms.first_words.FirstWord.TheVariants as first;
ghost use Rattle.scasp_answers_lines.specs.Forms.View.{line_of};

use crate::forms::edges::{spaced_con, spaced_number};
use crate::forms::first_words::{CaseWord, NodeWord};
use crate::forms::line::Line;
use crate::rows::hint;
use scasp_answers_terms::{Cursor, Stop, atom, list, literal};
use scasp_name::Names;
use scasp_syntax::{Hint, Lit};
use std::alloc::Global;

/// Takes what stands behind `pos`.
fn pos(alloc: Global, cursor: &mut Cursor<'_>, names: &Names) -> Result<Line, Stop>
    ensures { Reads line_of (made (λ r. lines.pos_line r.0 r.1.0 r.1.1) (spec.spaced_at (spec.pos_at (place_in names.now)) cursor.old)) result cursor.new }
{
    cursor.expect(b" ")?;
    let atom = atom(alloc, cursor, names)?;
    cursor.expect(b" rule ")?;
    let rule = cursor.number()?;
    cursor.expect(b" ")?;
    let terms = list(alloc, cursor, names)?;
    Ok(Line::Pos(atom, rule, terms))
}

/// Takes what stands behind `neg`.
fn neg(alloc: Global, cursor: &mut Cursor<'_>, names: &Names) -> Result<Line, Stop>
    ensures { Reads line_of (made lines.neg_line (spec.spaced_at (atom_at (place_in names.now)) cursor.old)) result cursor.new }
{
    cursor.expect(b" ")?;
    let atom = atom(alloc, cursor, names)?;
    Ok(Line::Neg(atom))
}

/// Takes a literal, and the line that it repeats.
fn repeat(alloc: Global, cursor: &mut Cursor<'_>, names: &Names) -> Result<(Lit, u128), Stop>
    ensures { Reads (λ r. r) (spec.spaced_at (spec.repeat_at (place_in names.now)) cursor.old) result cursor.new }
{
    cursor.expect(b" ")?;
    let lit = literal(alloc, cursor, names)?;
    cursor.expect(b" at ")?;
    let at = cursor.number()?;
    Ok((lit, at))
}

/// Takes what stands behind `test`.
fn test(alloc: Global, cursor: &mut Cursor<'_>, names: &Names) -> Result<Line, Stop>
    ensures { Reads line_of (made (λ r. lines.test_line r.0 r.1) (spec.spaced_at (spec.test_at (place_in names.now)) cursor.old)) result cursor.new }
{
    let con = spaced_con(alloc, cursor, names)?;
    let hint = spaced_hint(alloc, cursor)?;
    Ok(Line::Test(con, hint))
}

/// Takes a blank and a hint.
fn spaced_hint(alloc: Global, cursor: &mut Cursor<'_>) -> Result<Hint, Stop>
    ensures { Reads (λ h. h) (spec.spaced_at hint_at cursor.old) result cursor.new }
{
    cursor.expect(b" ")?;
    hint(alloc, cursor)
}

/// Takes what stands behind `loop`.
fn repeated(alloc: Global, cursor: &mut Cursor<'_>, names: &Names) -> Result<Line, Stop>
    ensures { Reads line_of (made (λ r. lines.loop_line r.0 r.1) (spec.spaced_at (spec.repeat_at (place_in names.now)) cursor.old)) result cursor.new }
{
    let (lit, at) = repeat(alloc, cursor, names)?;
    Ok(Line::Loop(lit, at))
}

/// Takes what stands behind `seen`.
fn seen(alloc: Global, cursor: &mut Cursor<'_>, names: &Names) -> Result<Line, Stop>
    ensures { Reads line_of (made (λ r. lines.seen_line r.0 r.1) (spec.spaced_at (spec.repeat_at (place_in names.now)) cursor.old)) result cursor.new }
{
    let (lit, at) = repeat(alloc, cursor, names)?;
    Ok(Line::Seen(lit, at))
}

/// Takes what stands behind `rule`.
fn rule(cursor: &mut Cursor<'_>) -> Result<Line, Stop>
    ensures { Reads line_of (made lines.rule_line (spec.spaced_at number_at cursor.old)) result cursor.new }
{
    Ok(Line::Rule(spaced_number(cursor)?))
}

/// Takes what stands behind `split`.
fn split(alloc: Global, cursor: &mut Cursor<'_>, names: &Names) -> Result<Line, Stop>
    ensures { Reads line_of (made lines.split_line (spec.spaced_at (con_at (place_in names.now)) cursor.old)) result cursor.new }
{
    Ok(Line::Split(spaced_con(alloc, cursor, names)?))
}

/// Takes what stands behind `void`.
fn void(alloc: Global, cursor: &mut Cursor<'_>) -> Result<Line, Stop>
    ensures { Reads line_of (made lines.void_line (spec.spaced_at hint_at cursor.old)) result cursor.new }
{
    Ok(Line::Void(spaced_hint(alloc, cursor)?))
}

/// Takes what stands behind `leaf`.
fn leaf(cursor: &mut Cursor<'_>) -> Result<Line, Stop>
    ensures { Reads line_of (made lines.leaf_line (spec.spaced_at number_at cursor.old)) result cursor.new }
{
    Ok(Line::Leaf(spaced_number(cursor)?))
}

/// Takes the rest of a line of a node, whose first word is this.
pub fn node(
    alloc: Global,
    word: NodeWord,
    cursor: &mut Cursor<'_>,
    names: &Names,
) -> Result<Line, Stop>
    ensures { Reads line_of (behind_word (spec.forms (place_in names.now)) (text_of (first.Node word)) cursor.old) result cursor.new }
{
    match word {
        NodeWord::Pos => pos(alloc, cursor, names),
        NodeWord::Neg => neg(alloc, cursor, names),
        NodeWord::Loop => repeated(alloc, cursor, names),
        NodeWord::Seen => seen(alloc, cursor, names),
        NodeWord::Test => test(alloc, cursor, names),
    }
}

/// The same of a line of a rule or a case.
pub fn case(
    alloc: Global,
    word: CaseWord,
    cursor: &mut Cursor<'_>,
    names: &Names,
) -> Result<Line, Stop>
    ensures { Reads line_of (behind_word (spec.forms (place_in names.now)) (text_of (first.Case word)) cursor.old) result cursor.new }
{
    match word {
        CaseWord::Rule => rule(cursor),
        CaseWord::Split => split(alloc, cursor, names),
        CaseWord::Void => void(alloc, cursor),
        CaseWord::Leaf => leaf(cursor),
        CaseWord::Head => Ok(Line::Head),
    }
}
