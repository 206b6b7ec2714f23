//! Justification trees and their lists.

ghost use Rattle.std.specs.Prelude.{◌≡◌, ◌≤◌, ◌<◌, ◌+◌, ◌++◌, ◌∷◌, [], max, map, length, slice_get, IfSome, OnOk, OnErr};
ghost use Rattle.std.specs.Option.{option_copied, option_map};
ghost use Rattle.scasp_cert.specs.Freeing.{depth_covered, depth_of_below, depth_within, lines_of_below, lines_of_cases, lines_within};
ghost use Rattle.scasp_cert.specs.Lines.{lines_at, lines_below, lines_in, lines_of};
ghost use Rattle.scasp_cert.specs.Trees.{covering, listed};
ghost use Rattle.scasp_cert.specs.View.{tree_of, trees_of, branch_of, cover_of, covers_of};
ghost use Rattle.scasp_cert.specs.declared.tree.Case.{size-Case};
ghost use Rattle.scasp_cert.specs.declared.tree.Cover.{size-Cover};
ghost use Rattle.scasp_cert.specs.declared.tree.Covers.{size-Covers};
ghost use Rattle.scasp_cert.specs.declared.tree.Node.{size-Node};
ghost use Rattle.scasp_cert.specs.declared.tree.Nodes.{size-Nodes};

use crate::lists::item_at;
use scasp_name::Memory;
use scasp_syntax::{Atom, Con, Hint, Lit, Terms};
use std::alloc::Global;

/// A line of a tree, with what stands below it.
#[cycle(tree)]
#[derive(Drop)]
pub enum Node {
    /// A positive literal, by the rule of this number under terms for its variables; below it the rule's flat items.
    Pos {
        atom: Atom,
        rule: u64,
        terms: Terms,
        children: Nodes,
    },
    /// A negated literal; below it each rule of its predicate, with its cases.
    Neg {
        atom: Atom,
        covers: Covers,
    },
    /// A literal that repeats its ancestor on line `at`.
    Loop {
        lit: Lit,
        at: u64,
    },
    /// A negated literal that repeats the earlier one on line `at`.
    Seen {
        lit: Lit,
        at: u64,
    },
    /// A constraint that the context entails, as the hint shows.
    Test {
        con: Con,
        hint: Hint,
    },
}

/// A list of nodes.
#[cycle(tree)]
pub struct Nodes {
    pub list: Vec<Node>,
}

/// A rule under a negated literal, with the cases in which its body fails.
#[cycle(tree)]
#[derive(Drop)]
pub struct Cover {
    pub rule: u64,
    pub case: Case,
}

/// A list of covers.
#[cycle(tree)]
#[derive(Drop)]
pub struct Covers {
    pub list: Vec<Cover>,
}

/// A case tree: why a rule's body fails, or a denial's, or a rule with its head holds.
#[cycle(tree)]
pub enum Case {
    /// Two cases, the first under the constraint and the second under its negation.
    Split {
        con: Con,
        first: Box<Case>,
        second: Box<Case>,
    },
    /// A case that cannot arise, as the hint shows.
    Void {
        hint: Hint,
    },
    /// Items 1 to `item - 1` of the body are true, and item `item` is false.
    Leaf {
        item: u64,
        children: Nodes,
    },
    /// All items of the rule are true, and so is its head.
    Head {
        children: Nodes,
    },
}

impl Drop for Nodes {
    /// Frees nodes of any depth by a loop. Calls go down only where no memory is there for the lists of what is still to be freed.
    #[cycle(tree)]
    #[tactic(auto, using(crate::proofs::FreeLemmas::node_last, crate::proofs::FreeLemmas::cover_last, crate::proofs::FreeLemmas::node_deepest, crate::proofs::FreeLemmas::cover_deepest))]
    fn drop(self) {
        let mut nodes = self.into_list();
        let mut covers = Vec::new(*nodes.allocator());
        loop {
            if let Some(node) = nodes.pop() {
                match node.take_below() {
                    Below::Nodes(children) => nodes = put_nodes(children, nodes),
                    Below::Covers(rules) => covers = put_covers(rules, covers),
                    Below::Cases(_, _) | Below::Nothing => {}
                }
            } else if let Some(cover) = covers.pop() {
                match cover.into_case().take_below() {
                    Below::Cases(first, second) => {
                        if let Some(_second) = push_case(&mut covers, second) {}
                        if let Some(_first) = push_case(&mut covers, first) {}
                    }
                    Below::Nodes(children) => nodes = put_nodes(children, nodes),
                    Below::Covers(_) | Below::Nothing => {}
                }
            } else {
                return;
            }
        }
    }
}

impl Drop for Case {
    /// Frees cases of any depth, as nodes are freed.
    #[cycle(tree)]
    #[tactic(auto, using(crate::proofs::FreeLemmas::cover_last, crate::proofs::FreeLemmas::cover_deepest))]
    fn drop(self) {
        let (first, second) = match self.take_below() {
            Below::Cases(first, second) => (first, second),
            Below::Nodes(_nodes) => return,
            Below::Covers(_covers) => return,
            Below::Nothing => return,
        };
        let mut covers = Vec::new(*Box::allocator(&first));
        if let Some(_second) = push_case(&mut covers, second) {}
        if let Some(_first) = push_case(&mut covers, first) {}
        while let Some(cover) = covers.pop() {
            match cover.into_case().take_below() {
                Below::Cases(first, second) => {
                    if let Some(_second) = push_case(&mut covers, second) {}
                    if let Some(_first) = push_case(&mut covers, first) {}
                }
                Below::Nodes(_nodes) => {}
                Below::Covers(_) | Below::Nothing => {}
            }
        }
    }
}

/// What stands below a node or a case.
enum Below {
    Nodes(Nodes),
    Covers(Covers),
    Cases(Box<Case>, Box<Case>),
    Nothing,
}

impl Node {
    /// What stands below the node.
    fn take_below(self) -> Below
        ensures lines { lines_of (tree_of self) ≡ 1 + lines_of_below result }
        ensures depth { depth_of_below result < size-Node self }
    {
        match self {
            Node::Pos { children, .. } => Below::Nodes(children),
            Node::Neg { covers, .. } => Below::Covers(covers),
            Node::Loop { .. } | Node::Seen { .. } | Node::Test { .. } => Below::Nothing,
        }
    }
}

impl Case {
    /// What stands below the case.
    fn take_below(self) -> Below
        ensures lines { lines_at (branch_of self) ≡ 1 + lines_of_below result }
        ensures depth { depth_of_below result < size-Case self }
    {
        match self {
            Case::Split {
                con: _,
                first,
                second,
            } => Below::Cases(first, second),
            Case::Void { hint: _ } => Below::Nothing,
            Case::Leaf { item: _, children } | Case::Head { children } => Below::Nodes(children),
        }
    }
}

impl Nodes {
    /// The nodes as a `Vec`, which takes no memory.
    fn into_list(self) -> Vec<Node>
        ensures { result ≡ self.list }
    {
        let Nodes { list } = self;
        list
    }
}

/// Puts a case by itself among rules; where no memory is there it is given back.
#[tactic(auto, using(crate::proofs::FreeLemmas::cover_last, crate::proofs::FreeLemmas::cover_deepest))]
fn push_case(covers: &mut Vec<Cover>, case: Box<Case>) -> Option<Case>
    ensures lines { lines_of_cases covers.new.items ≤ lines_of_cases covers.old.items + lines_at (branch_of case.value) }
    ensures depth { depth_covered covers.new.items ≤ max (depth_covered covers.old.items) (1 + size-Case case.value) }
    ensures back { IfSome result (λ given. size-Case given ≡ size-Case case.value) }
{
    match covers.push(Cover::around(case)) {
        Ok(()) => None,
        Err(failed) => Some(failed.value.into_case()),
    }
}

impl Cover {
    /// The case by itself, among rules.
    fn around(case: Box<Case>) -> Cover
        ensures lines { lines_at (cover_of result).1 ≡ lines_at (branch_of case.value) }
        ensures depth { size-Cover result ≡ 1 + size-Case case.value }
    {
        Cover {
            rule: 0,
            case: Box::into_inner(case),
        }
    }

    /// The case of the rule.
    fn into_case(self) -> Case
        ensures lines { lines_at (branch_of result) ≡ lines_at (cover_of self).1 }
        ensures depth { size-Cover self ≡ 1 + size-Case result }
    {
        let Cover { rule: _, case } = self;
        case
    }
}

impl Covers {
    /// The rules as a `Vec`, which takes no memory.
    #[tactic(auto, using(crate::proofs::FreeLemmas::cases_within))]
    fn into_list(self) -> Vec<Cover>
        ensures lines { lines_of_cases result.items ≤ lines_in (covering (covers_of self)) }
        ensures depth { depth_covered result.items < size-Covers self }
    {
        let Covers { list } = self;
        list
    }
}

/// The nodes and the others.
#[cycle(tree)]
#[tactic(auto, using(crate::proofs::FreeLemmas::node_last, crate::proofs::FreeLemmas::node_deepest))]
fn put_nodes(nodes: Nodes, others: Vec<Node>) -> Vec<Node>
    ensures lines { lines_within result.items ≤ lines_below (listed (trees_of nodes)) + lines_within others.items }
    ensures depth { depth_within result.items ≤ max (size-Nodes nodes) (depth_within others.items) }
{
    let mut list = nodes.into_list();
    let mut rest = others;
    while let Some(node) = list.pop() {
        let _ = rest.push(node);
    }
    rest
}

/// The rules and the others.
#[cycle(tree)]
#[tactic(auto, using(crate::proofs::FreeLemmas::cover_last, crate::proofs::FreeLemmas::cover_deepest))]
fn put_covers(covers: Covers, others: Vec<Cover>) -> Vec<Cover>
    ensures lines { lines_of_cases result.items ≤ lines_in (covering (covers_of covers)) + lines_of_cases others.items }
    ensures depth { depth_covered result.items ≤ max (size-Covers covers) (depth_covered others.items) }
{
    let mut list = covers.into_list();
    let mut rest = others;
    while let Some(cover) = list.pop() {
        let _ = rest.push(cover);
    }
    rest
}

impl Nodes {
    /// No node. It takes no memory.
    pub fn new(alloc: Global) -> Nodes
        ensures { trees_of result ≡ [] }
    {
        Nodes {
            list: Vec::new(alloc),
        }
    }

    /// How many nodes there are.
    pub fn len(&self) -> usize
        ensures { result ≡ length (trees_of self.now) }
    {
        self.list.len()
    }

    /// The nodes, in order.
    pub fn as_slice(&self) -> &[Node]
        ensures { map tree_of result.now ≡ trees_of self.now }
    {
        self.list.as_slice()
    }

    /// The node at a place from 0, if there is one.
    pub fn get(&self, i: usize) -> Option<&Node>
        ensures { slice_get (trees_of self.now) i ≡ option_map tree_of (option_copied result) }
    {
        item_at(self.as_slice(), i)
    }

    /// Puts a node last. An error leaves the list as it was.
    pub fn push(&mut self, node: Node) -> Result<(), Memory>
        ensures ok { OnOk result (trees_of self.new ≡ trees_of self.old ++ tree_of node ∷ []) }
        ensures err { OnErr result (trees_of self.new ≡ trees_of self.old) }
    {
        self.list.push(node)?;
        Ok(())
    }
}

impl Covers {
    /// No cover. It takes no memory.
    pub fn new(alloc: Global) -> Covers
        ensures { covers_of result ≡ [] }
    {
        Covers {
            list: Vec::new(alloc),
        }
    }

    /// How many covers there are.
    pub fn len(&self) -> usize
        ensures { result ≡ length (covers_of self.now) }
    {
        self.list.len()
    }

    /// The covers, in order.
    pub fn as_slice(&self) -> &[Cover]
        ensures { map cover_of result.now ≡ covers_of self.now }
    {
        self.list.as_slice()
    }

    /// The cover at a place from 0, if there is one.
    pub fn get(&self, i: usize) -> Option<&Cover>
        ensures { slice_get (covers_of self.now) i ≡ option_map cover_of (option_copied result) }
    {
        item_at(self.as_slice(), i)
    }

    /// Puts a cover last. An error leaves the list as it was.
    pub fn push(&mut self, cover: Cover) -> Result<(), Memory>
        ensures ok { OnOk result (covers_of self.new ≡ covers_of self.old ++ cover_of cover ∷ []) }
        ensures err { OnErr result (covers_of self.new ≡ covers_of self.old) }
    {
        self.list.push(cover)?;
        Ok(())
    }
}
