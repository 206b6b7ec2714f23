//! Parts of a tree, and the lines that are open around them.
ghost use Rattle.std.specs.Prelude.{◌≡◌, true};
ghost use Rattle.scasp_answers_terms.specs.Tokens.Bounds.{line_fits};
ghost use Rattle.scasp_answers_lines.specs.Forms.View.{line_of};

use scasp_answers_lines::Line;
use scasp_cert::{Case, Cover, Node};

/// What stands right below a line.
#[derive(Drop)]
pub enum Part {
    Node(Node),
    /// A rule under a negated literal, with its case.
    Cover(Cover),
    Case(Case),
}

/// A line below which others may still stand, with the parts right below it so far.
#[derive(Drop)]
pub struct Open {
    pub line: Line,
    pub parts: Vec<Part>,
    ghost fits: { line_fits (line_of line) ≡ true },
}
