//! What may stand right below a line.
ghost use Rattle.std.specs.Prelude.{◌≡◌};
ghost use Rattle.scasp_answers_lines.specs.Forms.View.{line_of};
ghost use Rattle.scasp_answers.specs.Blocks.Open as spec;
ghost use Rattle.scasp_answers.specs.Parts.View.{room_of};

use scasp_answers_lines::Line;

/// What may stand right below a line.
#[derive(Clone, Copy)]
pub enum Room {
    Nodes,
    Covers,
    /// Exactly so many cases.
    Cases(usize),
    Nothing,
}

pub fn room_below(line: &Line) -> Room
    ensures { room_of result ≡ spec.room_below (line_of line.now) }
{
    match line {
        Line::Tree | Line::Pos(_, _, _) | Line::Leaf(_) | Line::Head => Room::Nodes,
        Line::Neg(_) => Room::Covers,
        Line::Check(_) | Line::Rule(_) => Room::Cases(1),
        Line::Split(_) => Room::Cases(2),
        Line::Header(_)
        | Line::Ending(_, _)
        | Line::Rejected(_, _, _, _)
        | Line::Answer(_, _, _)
        | Line::Given(_)
        | Line::Sample(_)
        | Line::Clash(_)
        | Line::Map(_)
        | Line::End
        | Line::Loop(_, _)
        | Line::Seen(_, _)
        | Line::Test(_, _)
        | Line::Void(_) => Room::Nothing,
    }
}

fn is_node(line: &Line) -> bool
    ensures { result ≡ spec.is_node (line_of line.now) }
{
    matches!(
        line,
        Line::Pos(_, _, _) | Line::Neg(_) | Line::Loop(_, _) | Line::Seen(_, _) | Line::Test(_, _)
    )
}

fn is_cover(line: &Line) -> bool
    ensures { result ≡ spec.is_cover (line_of line.now) }
{
    matches!(line, Line::Rule(_))
}

fn is_case(line: &Line) -> bool
    ensures { result ≡ spec.is_case (line_of line.now) }
{
    matches!(
        line,
        Line::Split(_) | Line::Void(_) | Line::Leaf(_) | Line::Head
    )
}

/// Whether the line may stand there, behind so many parts.
pub fn may_stand(room: Room, parts: usize, line: &Line) -> bool
    ensures { result ≡ spec.may_stand (room_of room) parts (line_of line.now) }
{
    match room {
        Room::Nodes => is_node(line),
        Room::Covers => is_cover(line),
        Room::Cases(cases) => is_case(line) && parts < cases,
        Room::Nothing => false,
    }
}
