//! Lines, and what stands on them.

use scasp_cert::{Case, Node};
use scasp_lines_places::{Body, Due, Place};
use scasp_syntax::Atom;
use std::rc::Rc;

/// What stands on a line with all that is below it.
#[derive(Drop)]
pub enum Part<'a> {
    /// A node, and what it is due for.
    Node {
        due: Due,
        node: &'a Node,
    },
    /// A rule under a negated literal with this atom.
    Rule {
        clause: u64,
        atom: &'a Atom,
        case: &'a Case,
    },
    /// A clause that is checked beside the query.
    Check {
        clause: u64,
        case: &'a Case,
    },
    /// A case of a body, which is plain where the body is bare.
    Case {
        body: Rc<Body>,
        bare: bool,
        case: &'a Case,
    },
}

/// A line: its number from 1, the number of the next universal variable, how many constraints opened on the way to it, how
/// many of them opened on the way to the line above it, what holds there, and what stands there.
#[derive(Drop)]
pub struct Line<'a> {
    pub at: u64,
    pub next: u64,
    pub size: usize,
    pub kept: usize,
    pub here: Place,
    pub part: Part<'a>,
}
