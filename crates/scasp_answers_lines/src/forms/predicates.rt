//! Clashes, and levels of predicates.
ghost use Rattle.std.specs.Prelude.{◌≡◌};
ghost use Rattle.scasp_reader_terms.specs.Names.{place_in};
ghost use Rattle.scasp_answers_terms.specs.Tokens.Forms as spec;
ghost use Rattle.scasp_answers_terms.specs.Tokens.Lines as lines;
ghost use Rattle.scasp_answers_terms.specs.Tokens.Readers.{made};
ghost use Rattle.scasp_answers_terms.specs.Tokens.View.{Reads};
ghost use Rattle.scasp_answers_lines.specs.Forms.View.{line_of, pred_of};

use crate::forms::edges::spaced_number;
use crate::forms::line::Line;
use crate::rows::hint;
use scasp_answers_terms::{Cursor, Stop, Token, bounded_place, is_count, name};
use scasp_cert::Clash;
use scasp_name::{NameId, Names};
use scasp_syntax::{Pred, PredMap};
use std::alloc::Global;

/// Takes what stands behind `clash`.
pub fn clash(alloc: Global, cursor: &mut Cursor<'_>) -> Result<Line, Stop>
    ensures { Reads line_of (made (λ r. lines.clash_line (spec.clash_of r)) (spec.spaced_at spec.clash_at cursor.old)) result cursor.new }
{
    let first = spaced_number(cursor)?;
    let second = spaced_number(cursor)?;
    cursor.expect(b" ")?;
    let hint = hint(alloc, cursor)?;
    Ok(Line::Clash(Clash {
        first: bounded_place(first),
        second: bounded_place(second),
        hint,
    }))
}

/// A predicate whose number of arguments may be too large.
#[derive(Clone, Copy)]
pub struct WidePred {
    pub minus: bool,
    pub name: NameId,
    pub arity: u128,
}

/// The level and the sign of a predicate; where a number is too large, a level that is too large.
fn map_of(pred: WidePred, level: u128, plus: bool) -> PredMap
    ensures { result ≡ spec.map_of (pred_of pred, (level, plus)) }
{
    let WidePred { minus, name, arity } = pred;
    if is_count(arity) {
        let arity = arity as u64;
        let pred = Pred { minus, name, arity };
        return PredMap {
            pred,
            level: bounded_place(level),
            plus,
        };
    }
    PredMap {
        pred: Pred {
            minus,
            name,
            arity: 0,
        },
        level: u64::MAX,
        plus,
    }
}

/// Takes a predicate whose sign has been taken.
fn unsigned_pred(
    alloc: Global,
    minus: bool,
    cursor: &mut Cursor<'_>,
    names: &Names,
) -> Result<WidePred, Stop>
    ensures { Reads pred_of (spec.unsigned_pred_at (place_in names.now) minus cursor.old) result cursor.new }
{
    let name = name(alloc, cursor, names)?;
    cursor.expect(b"/")?;
    let arity = cursor.number()?;
    Ok(WidePred { minus, name, arity })
}

/// Takes a predicate.
fn pred(alloc: Global, cursor: &mut Cursor<'_>, names: &Names) -> Result<WidePred, Stop>
    ensures { Reads pred_of (spec.pred_at (place_in names.now) cursor.old) result cursor.new }
{
    if let Some(Token::Minus) = cursor.next() {
        cursor.take();
        return unsigned_pred(alloc, true, cursor, names);
    }
    unsigned_pred(alloc, false, cursor, names)
}

/// Takes the sign of a level, and tells whether it is a plus.
fn level_sign(cursor: &mut Cursor<'_>) -> Result<bool, Stop>
    ensures { Reads (λ plus. plus) (spec.level_sign_at cursor.old) result cursor.new }
{
    if cursor.skips(b"+") {
        return Ok(true);
    }
    cursor.expect(b"-")?;
    Ok(false)
}

/// Takes what stands behind `map`.
pub fn map(alloc: Global, cursor: &mut Cursor<'_>, names: &Names) -> Result<Line, Stop>
    ensures { Reads line_of (made (λ r. lines.map_line (spec.map_of r)) (spec.spaced_at (spec.map_at (place_in names.now)) cursor.old)) result cursor.new }
{
    cursor.expect(b" ")?;
    let pred = pred(alloc, cursor, names)?;
    let level = spaced_number(cursor)?;
    cursor.expect(b" ")?;
    let plus = level_sign(cursor)?;
    Ok(Line::Map(map_of(pred, level, plus)))
}
