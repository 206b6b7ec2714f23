//! Justification trees as text. What is still to be put waits on a stack in memory, so that no tree is too deep for the
//! machine's stack.
ghost use Rattle.std.specs.Prelude.{◌≡◌, ◌++◌, ◌+◌, ◌*◌, ◌<◌, map, reverse, OnOk};
ghost use Rattle.scasp_cert.specs.Lines.{lines_at, lines_below, lines_in, lines_of};
ghost use Rattle.scasp_cert.specs.Trees.{listed, covering};
ghost use Rattle.scasp_cert.specs.View.{tree_of, trees_of, branch_of, cover_of};
ghost use Rattle.scasp_cert.specs.Text.Trees as spec;
ghost use Rattle.scasp_print.specs.Inside.Waiting.{all_text, text_of, weight, weights};

use crate::indents::below;
use crate::lines::{
    put_head_line, put_leaf_line, put_loop_line, put_neg_line, put_pos_line, put_rule_line,
    put_seen_line, put_split_line, put_test_line, put_void_line,
};
use crate::stack::wait;
use scasp_cert::{Case, Cover, Node, Nodes};
use scasp_name::{Memory, Names};

/// A part of a tree that is still to be put, behind so many blanks.
#[derive(Drop)]
enum Waiting<'a> {
    Nodes(u64, &'a [Node]),
    Rules(u64, &'a [Cover]),
    Case(u64, &'a Case),
}

/// Puts the line of a node; what stands below it waits.
fn put_node<'a>(
    out: &mut Vec<u8>,
    names: &Names,
    depth: u64,
    node: &'a Node,
    waiting: &mut Vec<Waiting<'a>>,
) -> Result<(), Memory>
    ensures text { OnOk result (out.new.items ++ all_text names.now (reverse waiting.new.items) ≡ out.old.items ++ (spec.tree_text names.now depth (tree_of node.now) ++ all_text names.now (reverse waiting.old.items))) }
    ensures falls { OnOk result (weights (reverse waiting.new.items) < weights (reverse waiting.old.items) + 2 * lines_of (tree_of node.now)) }
{
    match node {
        Node::Pos {
            atom,
            rule,
            terms,
            children,
        } => {
            put_pos_line(out, names, depth, atom, *rule, terms)?;
            wait(waiting, Waiting::Nodes(below(depth)?, children.as_slice()))
        }
        Node::Neg { atom, covers } => {
            put_neg_line(out, names, depth, atom)?;
            wait(waiting, Waiting::Rules(below(depth)?, covers.as_slice()))
        }
        Node::Loop { lit, at } => put_loop_line(out, names, depth, lit, *at),
        Node::Seen { lit, at } => put_seen_line(out, names, depth, lit, *at),
        Node::Test { con, hint } => put_test_line(out, names, depth, con, hint),
    }
}

/// Puts the first line of a case; what stands below it waits.
fn put_first_line<'a>(
    out: &mut Vec<u8>,
    names: &Names,
    depth: u64,
    case: &'a Case,
    waiting: &mut Vec<Waiting<'a>>,
) -> Result<(), Memory>
    ensures text { OnOk result (out.new.items ++ all_text names.now (reverse waiting.new.items) ≡ out.old.items ++ (spec.branch_text names.now depth (branch_of case.now) ++ all_text names.now (reverse waiting.old.items))) }
    ensures falls { OnOk result (weights (reverse waiting.new.items) < weights (reverse waiting.old.items) + 2 * lines_at (branch_of case.now)) }
{
    match case {
        Case::Split { con, first, second } => {
            put_split_line(out, names, depth, con)?;
            let next = below(depth)?;
            wait(waiting, Waiting::Case(next, second))?;
            wait(waiting, Waiting::Case(next, first))
        }
        Case::Void { hint } => put_void_line(out, depth, hint),
        Case::Leaf { item, children } => {
            put_leaf_line(out, depth, *item)?;
            wait(waiting, Waiting::Nodes(below(depth)?, children.as_slice()))
        }
        Case::Head { children } => {
            put_head_line(out, depth)?;
            wait(waiting, Waiting::Nodes(below(depth)?, children.as_slice()))
        }
    }
}

/// Puts the line of the first of some nodes; what stands below it waits, and then the other nodes.
fn put_first_node<'a>(
    out: &mut Vec<u8>,
    names: &Names,
    depth: u64,
    nodes: &'a [Node],
    waiting: &mut Vec<Waiting<'a>>,
) -> Result<(), Memory>
    ensures text { OnOk result (out.new.items ++ all_text names.now (reverse waiting.new.items) ≡ out.old.items ++ (spec.trees_text names.now depth (listed (map tree_of nodes.now)) ++ all_text names.now (reverse waiting.old.items))) }
    ensures falls { OnOk result (weights (reverse waiting.new.items) < weights (reverse waiting.old.items) + (2 * lines_below (listed (map tree_of nodes.now)) + 1)) }
{
    match nodes.split_first() {
        None => Ok(()),
        Some((first, others)) => {
            wait(waiting, Waiting::Nodes(depth, others))?;
            put_node(out, names, depth, first, waiting)
        }
    }
}

/// Puts the line of the first of some rules; its cases wait, and then the other rules.
fn put_first_rule<'a>(
    out: &mut Vec<u8>,
    names: &Names,
    depth: u64,
    rules: &'a [Cover],
    waiting: &mut Vec<Waiting<'a>>,
) -> Result<(), Memory>
    ensures text { OnOk result (out.new.items ++ all_text names.now (reverse waiting.new.items) ≡ out.old.items ++ (spec.branches_text names.now depth (covering (map cover_of rules.now)) ++ all_text names.now (reverse waiting.old.items))) }
    ensures falls { OnOk result (weights (reverse waiting.new.items) < weights (reverse waiting.old.items) + (2 * lines_in (covering (map cover_of rules.now)) + 1)) }
{
    match rules.split_first() {
        None => Ok(()),
        Some((first, others)) => {
            put_rule_line(out, depth, first.rule)?;
            wait(waiting, Waiting::Rules(depth, others))?;
            wait(waiting, Waiting::Case(below(depth)?, &first.case))
        }
    }
}

/// Puts the first line of a part that waited; what stands below it waits, and then what is left of the part.
fn put_first<'a>(
    out: &mut Vec<u8>,
    names: &Names,
    part: Waiting<'a>,
    waiting: &mut Vec<Waiting<'a>>,
) -> Result<(), Memory>
    ensures text { OnOk result (out.new.items ++ all_text names.now (reverse waiting.new.items) ≡ out.old.items ++ (text_of names.now part.entry ++ all_text names.now (reverse waiting.old.items))) }
    ensures falls { OnOk result (weights (reverse waiting.new.items) < weights (reverse waiting.old.items) + weight part.entry) }
{
    match part {
        Waiting::Nodes(depth, nodes) => put_first_node(out, names, depth, nodes, waiting),
        Waiting::Rules(depth, rules) => put_first_rule(out, names, depth, rules, waiting),
        Waiting::Case(depth, case) => put_first_line(out, names, depth, case, waiting),
    }
}

/// Puts a part at the end, with all that stands below it.
fn put_all(out: &mut Vec<u8>, names: &Names, part: Waiting<'_>) -> Result<(), Memory>
    ensures { OnOk result (out.new.items ≡ out.old.items ++ text_of names.now part.entry) }
{
    let mut waiting = Vec::new(*out.allocator());
    wait(&mut waiting, part)?;
    while let Some(next) = waiting.pop() {
        put_first(out, names, next, &mut waiting)?;
    }
    Ok(())
}

/// Puts nodes at the end, each behind so many blanks, with what stands below it.
pub fn put_nodes(out: &mut Vec<u8>, names: &Names, depth: u64, nodes: &Nodes) -> Result<(), Memory>
    ensures { OnOk result (out.new.items ≡ out.old.items ++ spec.trees_text names.now depth (listed (trees_of nodes.now))) }
{
    put_all(out, names, Waiting::Nodes(depth, nodes.as_slice()))
}

/// Puts a case at the end, behind so many blanks, with what stands below it.
pub fn put_case(out: &mut Vec<u8>, names: &Names, depth: u64, case: &Case) -> Result<(), Memory>
    ensures { OnOk result (out.new.items ≡ out.old.items ++ spec.branch_text names.now depth (branch_of case.now)) }
{
    put_all(out, names, Waiting::Case(depth, case))
}
