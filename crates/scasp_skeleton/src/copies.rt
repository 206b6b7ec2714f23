//! What stands on a line, put over what stands below it with another hint.
ghost use Rattle.std.specs.Prelude.{◌≡◌, OnOk};
ghost use Rattle.scasp_cert.specs.View.{branch_of, tree_of};
ghost use Rattle.scasp_search_trees.specs.Stacked.{built_of};
ghost use Rattle.scasp_skeleton.specs.Copies.{put_branch, put_tree};

use scasp_cert::{Case, Node};
use scasp_list::Memory;
use scasp_search_trees::{
    Stacks, put_case, put_head, put_leaf, put_neg, put_node, put_pos, put_split,
};
use scasp_syntax::{DeepCopy, Hint, copy_terms};
use std::alloc::Global;

/// Puts a copy of the node over what stands below it, with the hint if it is a test.
pub fn put_tree(alloc: Global, node: &Node, hint: Hint, stacks: &mut Stacks) -> Result<(), Memory>
    ensures { OnOk result (built_of stacks.new ≡ put_tree (tree_of node.now) hint (built_of stacks.old)) }
{
    match node {
        Node::Pos {
            atom,
            rule,
            terms,
            children,
        } => {
            let atom = atom.copy(alloc)?;
            let terms = copy_terms(alloc, terms)?;
            put_pos(alloc, atom, *rule, terms, children.len() as u64, stacks)
        }
        Node::Neg { atom, covers } => {
            let atom = atom.copy(alloc)?;
            put_neg(alloc, atom, covers.len() as u64, stacks)
        }
        Node::Loop { lit, at } => {
            let lit = lit.copy(alloc)?;
            put_node(Node::Loop { lit, at: *at }, stacks)
        }
        Node::Seen { lit, at } => {
            let lit = lit.copy(alloc)?;
            put_node(Node::Seen { lit, at: *at }, stacks)
        }
        Node::Test { con, .. } => {
            let con = con.copy(alloc)?;
            put_node(Node::Test { con, hint }, stacks)
        }
    }
}

/// Puts a copy of the case over what stands below it, with the hint if it cannot arise.
pub fn put_branch(alloc: Global, case: &Case, hint: Hint, stacks: &mut Stacks) -> Result<(), Memory>
    ensures { OnOk result (built_of stacks.new ≡ put_branch (branch_of case.now) hint (built_of stacks.old)) }
{
    match case {
        Case::Split { con, .. } => put_split(alloc, con.copy(alloc)?, stacks),
        Case::Void { .. } => put_case(Case::Void { hint }, stacks),
        Case::Leaf { item, children } => { put_leaf(alloc, *item, children.len() as u64, stacks) }
        Case::Head { children } => put_head(alloc, children.len() as u64, stacks),
    }
}
