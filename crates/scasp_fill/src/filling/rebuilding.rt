//! Trees with other hints.
ghost use Rattle.std.specs.Prelude.{◌≡◌, IfOk, OnOk, map};
ghost use Rattle.scasp_search_trees.specs.Stacked.{built_of};
ghost use Rattle.scasp_cert.specs.Certificate.{checks_of};
ghost use Rattle.scasp_cert.specs.View.{branch_of, tree_of, trees_of};
ghost use Rattle.scasp_fill.specs.Filling.Inside.Pieces.{hinted_value, onto, put, put_branch, put_tree};
ghost use Rattle.scasp_search_rules.specs.Successors.Trees.{no_lines};

use crate::filling::hints::Hinted;
use crate::filling::pieces::Piece;
use scasp_cert::{Case, Checks, Node, Nodes};
use scasp_list::Memory;
use scasp_search_trees::{
    Stacks, put_case, put_check, put_head, put_leaf, put_neg, put_node, put_pos, put_rule,
    put_split, trees_and_checks,
};
use scasp_syntax::{DeepCopy, Hint, copy_terms};
use std::alloc::Global;

/// Puts the node over what stands below it, with the hint if it is a test.
fn put_tree(alloc: Global, node: &Node, hint: Hint, stacks: &mut Stacks) -> Result<(), Memory>
    ensures { OnOk result (built_of stacks.new ≡ put_tree (tree_of node.now) hint (built_of stacks.old)) }
{
    match node {
        Node::Pos {
            atom,
            rule,
            terms,
            children,
        } => {
            let atom = atom.copy(alloc)?;
            let terms = copy_terms(alloc, terms)?;
            put_pos(alloc, atom, *rule, terms, children.len() as u64, stacks)
        }
        Node::Neg { atom, covers } => {
            let atom = atom.copy(alloc)?;
            put_neg(alloc, atom, covers.len() as u64, stacks)
        }
        Node::Loop { lit, at } => {
            let lit = lit.copy(alloc)?;
            put_node(Node::Loop { lit, at: *at }, stacks)
        }
        Node::Seen { lit, at } => {
            let lit = lit.copy(alloc)?;
            put_node(Node::Seen { lit, at: *at }, stacks)
        }
        Node::Test { con, .. } => {
            let con = con.copy(alloc)?;
            put_node(Node::Test { con, hint }, stacks)
        }
    }
}

/// Puts the case over what stands below it, with the hint if it cannot arise.
fn put_branch(alloc: Global, case: &Case, hint: Hint, stacks: &mut Stacks) -> Result<(), Memory>
    ensures { OnOk result (built_of stacks.new ≡ put_branch (branch_of case.now) hint (built_of stacks.old)) }
{
    match case {
        Case::Split { con, .. } => put_split(alloc, con.copy(alloc)?, stacks),
        Case::Void { .. } => put_case(Case::Void { hint }, stacks),
        Case::Leaf { item, children } => { put_leaf(alloc, *item, children.len() as u64, stacks) }
        Case::Head { children } => put_head(alloc, children.len() as u64, stacks),
    }
}

/// Puts what stands on a line over what stands below it.
fn put(alloc: Global, line: Hinted, stacks: &mut Stacks) -> Result<(), Memory>
    ensures { OnOk result (built_of stacks.new ≡ put (hinted_value line.entry) (built_of stacks.old)) }
{
    let Hinted { piece, hint } = line;
    match piece {
        Piece::Node(node) => put_tree(alloc, node, hint, stacks),
        Piece::Rule(rule) => put_rule(rule, stacks),
        Piece::Check(clause) => put_check(clause, stacks),
        Piece::Case(case) => put_branch(alloc, case, hint, stacks),
    }
}

/// The trees and the checks of these lines with their hints. They are made from the last line back, so no call is as deep as
/// the tree.
#[tactic(auto, using(crate::proofs::FillingLemmas::StepLemmas::onto_last))]
pub(crate) fn rebuilt(alloc: Global, lines: Vec<Hinted>) -> Result<(Nodes, Checks), Memory>
    ensures trees { IfOk result (λ made. trees_of made.0 ≡ (onto (map hinted_value lines.entry.items) no_lines).nodes) }
    ensures checks { IfOk result (λ made. checks_of made.1 ≡ (onto (map hinted_value lines.entry.items) no_lines).checks) }
{
    let mut stacks = Stacks::new(alloc);
    let mut left = lines;
    while let Some(line) = left.pop() {
        put(alloc, line, &mut stacks)?;
    }
    trees_and_checks(alloc, stacks)
}
