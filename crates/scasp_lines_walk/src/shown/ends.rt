//! Where lines end, from the last line to the first.
ghost use Rattle.std.specs.Prelude.{◌≡◌, drop, reverse, IfOk};
ghost use Rattle.scasp_cert.specs.View.{branch_of, tree_of};
ghost use Rattle.scasp_lines_walk.specs.Shown.Inside.Ends.{ended_at, firm_node, firm_part, gathered, parts, parts_of_case, parts_of_node};
ghost use Rattle.scasp_lines_walk.specs.Traversal.View.{line_of, part_of};

use crate::traversal::{Line, Part};
use scasp_cert::{Case, Node};
use scasp_list::Memory;

/// Behind a line and all that is below it: the number of the line there, and whether what stands on the line is firm.
#[derive(Clone, Copy, Debug)]
pub(crate) struct Ended {
    pub behind: u64,
    pub firm: bool,
}

/// How many lines stand right below a node.
fn parts_of_node(node: &Node) -> usize
    ensures { result ≡ parts_of_node (tree_of node.now) }
{
    match node {
        Node::Pos { children, .. } => children.len(),
        Node::Neg { covers, .. } => covers.len(),
        Node::Loop { .. } | Node::Seen { .. } | Node::Test { .. } => 0,
    }
}

/// How many lines stand right below a case.
fn parts_of_case(case: &Case) -> usize
    ensures { result ≡ parts_of_case (branch_of case.now) }
{
    match case {
        Case::Split { .. } => 2,
        Case::Void { .. } => 0,
        Case::Leaf { children, .. } => children.len(),
        Case::Head { children } => children.len(),
    }
}

/// How many lines stand right below a line.
fn parts(part: &Part) -> usize
    ensures { result ≡ parts (part_of part.now) }
{
    match part {
        Part::Node { node, .. } => parts_of_node(*node),
        Part::Rule { .. } | Part::Check { .. } => 1,
        Part::Case { case, .. } => parts_of_case(*case),
    }
}

/// Whether a node is firm, where this tells whether all below it are.
fn firm_node(node: &Node, below: bool) -> bool
    ensures { result ≡ firm_node (tree_of node.now) below }
{
    match node {
        Node::Pos { .. } => below,
        Node::Loop { lit, .. } => !lit.positive,
        Node::Neg { .. } | Node::Seen { .. } | Node::Test { .. } => true,
    }
}

/// Whether what stands on a line is firm, where this tells whether all below it are.
fn firm_part(part: &Part, below: bool) -> bool
    ensures { result ≡ firm_part (part_of part.now) below }
{
    match part {
        Part::Node { node, .. } => firm_node(*node, below),
        Part::Rule { .. } | Part::Check { .. } | Part::Case { .. } => true,
    }
}

/// Takes so many of what ended last from the stack: behind them, and whether all of them are firm.
#[tactic(auto, using(crate::proofs::ShownLemmas::GatherLemmas::gathered_next, crate::proofs::ShownLemmas::GatherLemmas::gathered_none, crate::proofs::ShownLemmas::GatherLemmas::end_last))]
fn gather(start: Ended, count: usize, ended: &mut Vec<Ended>) -> Ended
    ensures gathered { result ≡ gathered start count (reverse ended.old.items) }
    ensures others { reverse ended.new.items ≡ drop count (reverse ended.old.items) }
{
    let mut below = start;
    let mut left = count;
    while left > 0 {
        left -= 1;
        let Some(next) = ended.pop() else {
            return below;
        };
        below = Ended {
            behind: next.behind,
            firm: below.firm && next.firm,
        };
    }
    below
}

/// Where the line ends; what ended right below it is taken from the stack.
pub(crate) fn end_line(line: &Line, ended: &mut Vec<Ended>) -> Result<Ended, Memory>
    ensures end { IfOk result (λ made. made ≡ ended_at (line_of line.now) (reverse ended.old.items)) }
    ensures others { IfOk result (λ made. reverse ended.new.items ≡ drop (parts (part_of line.now.part)) (reverse ended.old.items)) }
{
    let start = Ended {
        behind: line.at.checked_add(1).ok_or(Memory)?,
        firm: true,
    };
    let below = gather(start, parts(&line.part), ended);
    Ok(Ended {
        behind: below.behind,
        firm: firm_part(&line.part, below.firm),
    })
}
