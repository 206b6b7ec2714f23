//! Open lines: how they begin, what they take, whether they have all that they need.
ghost use Rattle.std.specs.Prelude.{◌≡◌, true, length};
ghost use Rattle.scasp_answers_terms.specs.Tokens.Bounds.{line_fits};
ghost use Rattle.scasp_answers_lines.specs.Forms.View.{line_of};
ghost use Rattle.scasp_answers.specs.Blocks.Open as spec;
ghost use Rattle.scasp_answers.specs.Blocks.States.{opened};
ghost use Rattle.scasp_answers.specs.Parts.View.{open_of, parts_in};

use crate::parts::open_line::{Open, Part};
use crate::parts::room::{Room, may_stand, room_below};
use scasp_answers_lines::Line;
use std::alloc::Global;

impl Open {
    /// The line, with nothing below it.
    pub fn new(alloc: Global, line: Line) -> Open
        requires { line_fits (line_of line) ≡ true }
        ensures { open_of result ≡ opened (line_of line) }
    {
        Open {
            line,
            parts: Vec::new(alloc),
        }
    }

    /// Whether the other line may stand right below, behind the parts that do.
    pub fn takes(&self, line: &Line) -> bool
        ensures { result ≡ spec.may_stand (spec.room_below (open_of self.now).line) (length (open_of self.now).parts) (line_of line.now) }
    {
        may_stand(room_below(&self.line), self.parts.len(), line)
    }

    /// The parts below the line.
    pub fn into_parts(self) -> Vec<Part>
        ensures { parts_in result.items ≡ (open_of self).parts }
    {
        let Open { line, parts } = self;
        drop(line);
        parts
    }

    /// Whether nothing more has to stand below the line.
    pub fn is_whole(&self) -> bool
        ensures { result ≡ spec.is_whole (open_of self.now) }
    {
        match room_below(&self.line) {
            Room::Cases(cases) => self.parts.len() == cases,
            Room::Nodes | Room::Covers | Room::Nothing => true,
        }
    }
}
