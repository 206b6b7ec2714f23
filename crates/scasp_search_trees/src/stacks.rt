//! Trees in the making.
ghost use Rattle.std.specs.Prelude.{◌≡◌, ◌∷◌, IfOk, OnOk, drop, take};
ghost use Rattle.scasp_search_trees.specs.Stacked.{built_of, cases_in, checks_in, covers_in, nodes_in, with_check, with_rule, without_covers};
ghost use Rattle.scasp_cert.specs.Certificate.{checks_of};
ghost use Rattle.scasp_cert.specs.Trees.{covering, head, leaf, listed, neg_tree, pos_tree, split};
ghost use Rattle.scasp_cert.specs.View.{branch_of, covers_of, tree_of, trees_of};
ghost use Rattle.scasp_search_rules.specs.Successors.Trees.{first_case, no_lines, with_case, with_node, without_nodes};

use scasp_cert::{Case, Check, Checks, Cover, Covers, Node, Nodes};
use scasp_list::Memory;
use scasp_syntax::{Atom, Con, Hint, Terms};
use std::alloc::Global;

/// What the lines from the last one on make so far, each list with its first item last.
#[derive(Drop)]
pub struct Stacks {
    pub nodes: Vec<Node>,
    pub cases: Vec<Case>,
    pub covers: Vec<Cover>,
    pub checks: Vec<Check>,
}

impl Stacks {
    /// What no line makes.
    pub fn new(alloc: Global) -> Stacks
        ensures { built_of result ≡ no_lines }
    {
        Stacks {
            nodes: Vec::new(alloc),
            cases: Vec::new(alloc),
            covers: Vec::new(alloc),
            checks: Vec::new(alloc),
        }
    }
}

/// The first so many nodes, which are taken from the stack.
#[tactic(auto, using(crate::proofs::StackLemmas::node_last))]
fn pop_nodes(alloc: Global, count: u64, stack: &mut Vec<Node>) -> Result<Nodes, Memory>
    ensures taken { IfOk result (λ made. trees_of made ≡ take count (nodes_in stack.old.items)) }
    ensures rest { OnOk result (nodes_in stack.new.items ≡ drop count (nodes_in stack.old.items)) }
{
    let mut made = Nodes::new(alloc);
    let mut more = count;
    while more > 0 {
        let Some(node) = stack.pop() else {
            return Ok(made);
        };
        made.push(node)?;
        more -= 1;
    }
    Ok(made)
}

/// The first so many covers, which are taken from the stack.
#[tactic(auto, using(crate::proofs::StackLemmas::cover_last))]
fn pop_covers(alloc: Global, count: u64, stack: &mut Vec<Cover>) -> Result<Covers, Memory>
    ensures taken { IfOk result (λ made. covers_of made ≡ take count (covers_in stack.old.items)) }
    ensures rest { OnOk result (covers_in stack.new.items ≡ drop count (covers_in stack.old.items)) }
{
    let mut made = Covers::new(alloc);
    let mut more = count;
    while more > 0 {
        let Some(cover) = stack.pop() else {
            return Ok(made);
        };
        made.push(cover)?;
        more -= 1;
    }
    Ok(made)
}

/// The first case, which is taken from the stack.
#[tactic(auto, using(crate::proofs::StackLemmas::case_last))]
fn pop_case(stack: &mut Vec<Case>) -> Case
    ensures case { branch_of result ≡ first_case (cases_in stack.old.items) }
    ensures rest { cases_in stack.new.items ≡ drop 1 (cases_in stack.old.items) }
{
    match stack.pop() {
        Some(case) => case,
        None => Case::Void { hint: Hint::Terms },
    }
}

#[tactic(auto, using(crate::proofs::StackLemmas::node_last))]
fn push_node(node: Node, stack: &mut Vec<Node>) -> Result<(), Memory>
    ensures { OnOk result (nodes_in stack.new.items ≡ tree_of node ∷ nodes_in stack.old.items) }
{
    stack.push(node)?;
    Ok(())
}

#[tactic(auto, using(crate::proofs::StackLemmas::case_last))]
fn push_case(case: Case, stack: &mut Vec<Case>) -> Result<(), Memory>
    ensures { OnOk result (cases_in stack.new.items ≡ branch_of case ∷ cases_in stack.old.items) }
{
    stack.push(case)?;
    Ok(())
}

#[tactic(auto, using(crate::proofs::StackLemmas::cover_last))]
fn push_cover(rule: u64, case: Case, stack: &mut Vec<Cover>) -> Result<(), Memory>
    ensures { OnOk result (covers_in stack.new.items ≡ (rule, branch_of case) ∷ covers_in stack.old.items) }
{
    stack.push(Cover { rule, case })?;
    Ok(())
}

#[tactic(auto, using(crate::proofs::StackLemmas::check_last))]
fn push_check(clause: u64, case: Case, stack: &mut Vec<Check>) -> Result<(), Memory>
    ensures { OnOk result (checks_in stack.new.items ≡ (clause, branch_of case) ∷ checks_in stack.old.items) }
{
    stack.push(Check { clause, case })?;
    Ok(())
}

/// Puts a positive literal over the first so many nodes.
///
/// # Errors
///
/// Want of memory, as for each call here.
pub fn put_pos(
    alloc: Global,
    atom: Atom,
    rule: u64,
    terms: Terms,
    children: u64,
    stacks: &mut Stacks,
) -> Result<(), Memory>
    ensures { OnOk result (built_of stacks.new ≡ with_node (pos_tree atom rule terms (listed (take children (nodes_in stacks.old.nodes.items)))) children (built_of stacks.old)) }
{
    let children = pop_nodes(alloc, children, &mut stacks.nodes)?;
    let node = Node::Pos {
        atom,
        rule,
        terms,
        children,
    };
    push_node(node, &mut stacks.nodes)
}

/// Puts a negated literal over the first so many covers.
pub fn put_neg(alloc: Global, atom: Atom, rules: u64, stacks: &mut Stacks) -> Result<(), Memory>
    ensures { OnOk result (built_of stacks.new ≡ with_node (neg_tree atom (covering (take rules (covers_in stacks.old.covers.items)))) 0 (without_covers rules (built_of stacks.old))) }
{
    let covers = pop_covers(alloc, rules, &mut stacks.covers)?;
    push_node(Node::Neg { atom, covers }, &mut stacks.nodes)
}

/// The first case in a box, which is taken from the stack.
fn boxed_case(alloc: Global, stack: &mut Vec<Case>) -> Result<Box<Case>, Memory>
    ensures case { IfOk result (λ boxed. branch_of boxed.value ≡ first_case (cases_in stack.old.items)) }
    ensures rest { OnOk result (cases_in stack.new.items ≡ drop 1 (cases_in stack.old.items)) }
{
    let case = pop_case(stack);
    Ok(Box::new(alloc, case)?)
}

fn split_case(con: Con, first: Box<Case>, second: Box<Case>) -> Case
    ensures { branch_of result ≡ split con (branch_of first.value) (branch_of second.value) }
{
    Case::Split { con, first, second }
}

/// Puts a split of the first two cases.
pub fn put_split(alloc: Global, con: Con, stacks: &mut Stacks) -> Result<(), Memory>
    ensures { OnOk result (built_of stacks.new ≡ with_case (split con (first_case (cases_in stacks.old.cases.items)) (first_case (drop 1 (cases_in stacks.old.cases.items)))) 2 (built_of stacks.old)) }
{
    let first = boxed_case(alloc, &mut stacks.cases)?;
    let second = boxed_case(alloc, &mut stacks.cases)?;
    push_case(split_case(con, first, second), &mut stacks.cases)?;
    Ok(())
}

/// Puts a case in which the item is false over the first so many nodes.
pub fn put_leaf(alloc: Global, item: u64, count: u64, stacks: &mut Stacks) -> Result<(), Memory>
    ensures { OnOk result (built_of stacks.new ≡ with_case (leaf item (listed (take count (nodes_in stacks.old.nodes.items)))) 0 (without_nodes count (built_of stacks.old))) }
{
    let children = pop_nodes(alloc, count, &mut stacks.nodes)?;
    push_case(Case::Leaf { item, children }, &mut stacks.cases)
}

/// Puts a case in which the head holds over the first so many nodes.
pub fn put_head(alloc: Global, count: u64, stacks: &mut Stacks) -> Result<(), Memory>
    ensures { OnOk result (built_of stacks.new ≡ with_case (head (listed (take count (nodes_in stacks.old.nodes.items)))) 0 (without_nodes count (built_of stacks.old))) }
{
    let children = pop_nodes(alloc, count, &mut stacks.nodes)?;
    push_case(Case::Head { children }, &mut stacks.cases)
}

/// Puts a node below which nothing stands.
pub fn put_node(node: Node, stacks: &mut Stacks) -> Result<(), Memory>
    ensures { OnOk result (built_of stacks.new ≡ with_node (tree_of node) 0 (built_of stacks.old)) }
{
    push_node(node, &mut stacks.nodes)
}

/// Puts a case below which nothing stands.
pub fn put_case(case: Case, stacks: &mut Stacks) -> Result<(), Memory>
    ensures { OnOk result (built_of stacks.new ≡ with_case (branch_of case) 0 (built_of stacks.old)) }
{
    push_case(case, &mut stacks.cases)
}

/// Puts a rule under a negated literal over the first case.
pub fn put_rule(rule: u64, stacks: &mut Stacks) -> Result<(), Memory>
    ensures { OnOk result (built_of stacks.new ≡ with_rule rule (built_of stacks.old)) }
{
    let case = pop_case(&mut stacks.cases);
    push_cover(rule, case, &mut stacks.covers)
}

/// Puts a check over the first case.
pub fn put_check(clause: u64, stacks: &mut Stacks) -> Result<(), Memory>
    ensures { OnOk result (built_of stacks.new ≡ with_check clause (built_of stacks.old)) }
{
    let case = pop_case(&mut stacks.cases);
    push_check(clause, case, &mut stacks.checks)
}

/// All checks of a stack.
#[tactic(auto, using(crate::proofs::StackLemmas::check_last))]
fn all_checks(alloc: Global, stack: Vec<Check>) -> Result<Checks, Memory>
    ensures { IfOk result (λ made. checks_of made ≡ checks_in stack.items) }
{
    let mut made = Checks::new(alloc);
    let mut stack = stack;
    while let Some(check) = stack.pop() {
        made.push(check)?;
    }
    Ok(made)
}

/// All nodes of a stack.
#[tactic(auto, using(crate::proofs::StackLemmas::node_last))]
fn all_nodes(alloc: Global, stack: Vec<Node>) -> Result<Nodes, Memory>
    ensures { IfOk result (λ made. trees_of made ≡ nodes_in stack.items) }
{
    let mut made = Nodes::new(alloc);
    let mut stack = stack;
    while let Some(node) = stack.pop() {
        made.push(node)?;
    }
    Ok(made)
}

/// The trees and the checks, where nothing else is left.
pub fn trees_and_checks(alloc: Global, stacks: Stacks) -> Result<(Nodes, Checks), Memory>
    ensures trees { IfOk result (λ made. trees_of made.0 ≡ (built_of stacks).nodes) }
    ensures checks { IfOk result (λ made. checks_of made.1 ≡ (built_of stacks).checks) }
{
    let Stacks {
        nodes,
        cases: _,
        covers: _,
        checks,
    } = stacks;
    Ok((all_nodes(alloc, nodes)?, all_checks(alloc, checks)?))
}
