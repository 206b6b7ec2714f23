//! Lines without what stands below them.
ghost use Rattle.std.specs.Prelude.{◌≡◌};
ghost use Rattle.scasp_fill.specs.Filling.Inside.Pieces.{piece_at, piece_value};
ghost use Rattle.scasp_lines_walk.specs.Traversal.View.{part_of};

use scasp_cert::{Case, Node};
use scasp_lines_walk::Part;

/// What stands on a line, without what stands below it: of a node and a case no more is read; a rule or a check is told by
/// its number.
#[derive(Drop)]
pub(crate) enum Piece<'a> {
    Node(&'a Node),
    Rule(u64),
    Check(u64),
    Case(&'a Case),
}

/// The piece of a line where this stands.
pub(crate) fn piece_of<'a>(part: &Part<'a>) -> Piece<'a>
    ensures { piece_value result ≡ piece_at (part_of part.now) }
{
    match part {
        Part::Node { node, .. } => Piece::Node(*node),
        Part::Rule { clause, .. } => Piece::Rule(*clause),
        Part::Check { clause, .. } => Piece::Check(*clause),
        Part::Case { case, .. } => Piece::Case(*case),
    }
}
