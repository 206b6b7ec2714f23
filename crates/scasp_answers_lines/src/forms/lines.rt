//! Lines, from their bytes.
ghost use Rattle.std.specs.Prelude.{◌≡◌};
ghost use Rattle.scasp_reader_terms.specs.Names.{place_in};
ghost use Rattle.scasp_answers_terms.specs.Tokens.Forms as spec;
ghost use Rattle.scasp_answers_terms.specs.Tokens.View.{Reads};
ghost use Rattle.scasp_answers_lines.specs.Forms.View.{line_of, Finds};

use crate::forms::edges::any_line;
use crate::forms::line::Line;
use scasp_answers_terms::{Cursor, Stop, Token};
use scasp_name::Names;
use std::alloc::Global;

/// Takes a line.
#[tactic(auto, unfolding(scasp_answers_terms::specs::Tokens::Forms::line_at))]
fn line(alloc: Global, cursor: &mut Cursor<'_>, names: &Names) -> Result<Line, Stop>
    ensures { Reads line_of (spec.line_at (place_in names.now) cursor.old) result cursor.new }
{
    let Some(first) = cursor.pop() else {
        return Err(Stop::NoForm);
    };
    let Token::Word(word) = first else {
        return Err(Stop::NoForm);
    };
    any_line(alloc, word, cursor, names)
}

/// The line that these bytes are, blanks aside, if they are one.
#[tactic(auto, unfolding(scasp_answers_terms::specs::Tokens::Forms::line_in))]
pub fn line_in(alloc: Global, bytes: &[u8], names: &Names) -> Result<Line, Stop>
    ensures { Finds (spec.line_in (place_in names.now) bytes.now) result }
{
    let mut cursor = Cursor::new(bytes);
    let line = line(alloc, &mut cursor, names)?;
    if !cursor.is_over() {
        drop(line);
        return Err(Stop::NoForm);
    }
    Ok(line)
}
