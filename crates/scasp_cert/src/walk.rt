//! The lines of a certificate, one after the other.

ghost use Rattle.std.specs.Prelude.{◌≡◌, ◌∷◌, ◌++◌, [], IfOk, MatchOption, OnOk};
ghost use Rattle.scasp_cert.specs.Certificate.{certificate_of};
ghost use Rattle.scasp_cert.specs.View.{branch_of, tree_of};
ghost use Rattle.scasp_cert.specs.Walk.{below, below_case, below_tree, walk};
ghost use Rattle.scasp_cert.specs.WalkView.{line_of, lines_behind, lines_in_stack, lines_left, lines_of_waiting};

use crate::certificate::{Cert, Check};
use crate::tree::{Case, Cover, Node};
use scasp_name::Memory;
use std::alloc::Global;

/// What stands on a line of a certificate, with all that stands below it.
#[derive(Drop)]
pub enum Line<'a> {
    Node(&'a Node),
    Rule(&'a Cover),
    Case(&'a Case),
    Check(&'a Check),
}

/// Parts of a certificate that stand side by side.
#[derive(Drop)]
enum Waiting<'a> {
    Nodes(&'a [Node]),
    Rules(&'a [Cover]),
    Case(&'a Case),
    Checks(&'a [Check]),
}

/// The line that parts begin with, and the parts behind it.
#[derive(Drop)]
struct Begun<'a> {
    line: Line<'a>,
    rest: Option<Waiting<'a>>,
}

/// The lines of a certificate that have still to come, from the first to the last. What stands below a line and behind it waits
/// on a stack of its own, so the machine's stack does not grow with the depth of the certificate.
#[derive(Drop)]
pub struct Walk<'a> {
    waiting: Vec<Waiting<'a>>,
}

impl<'a> Walk<'a> {
    /// All lines of the certificate.
    #[tactic(auto, using(crate::proofs::WalkLemmas::none_behind))]
    pub fn of(alloc: Global, cert: &'a Cert) -> Result<Walk<'a>, Memory>
        ensures { IfOk result (λ made. lines_left made ≡ walk (certificate_of cert.now)) }
    {
        let mut waiting = Vec::new(alloc);
        put(&mut waiting, Waiting::Checks(cert.checks.as_slice()))?;
        put(&mut waiting, Waiting::Nodes(cert.trees.as_slice()))?;
        Ok(Walk { waiting })
    }

    /// The next line, or none where all have come. After an error it is not told what is left.
    #[tactic(auto, using(crate::proofs::WalkLemmas::last_first, crate::proofs::WalkLemmas::side_by_side))]
    pub fn next(&mut self) -> Result<Option<Line<'a>>, Memory>
        ensures { IfOk result (λ found. MatchOption found (lines_left self.old ≡ []) (λ line. lines_left self.old ≡ line_of line ∷ lines_left self.new)) }
    {
        while let Some(parts) = self.waiting.pop() {
            if let Some(begun) = begin(parts) {
                return Ok(Some(start(&mut self.waiting, begun)?));
            }
        }
        Ok(None)
    }
}

/// Puts parts before those that wait.
#[tactic(auto, using(crate::proofs::WalkLemmas::last_first))]
fn put<'a>(waiting: &mut Vec<Waiting<'a>>, parts: Waiting<'a>) -> Result<(), Memory>
    ensures { OnOk result (lines_in_stack waiting.new.items ≡ lines_of_waiting parts.entry ++ lines_in_stack waiting.old.items) }
{
    waiting.push(parts)?;
    Ok(())
}

/// The line that the parts begin with, if there is one.
#[tactic(auto, using(crate::proofs::WalkLemmas::tree_begun, crate::proofs::WalkLemmas::case_begun))]
fn begin(parts: Waiting<'_>) -> Option<Begun<'_>>
    ensures { MatchOption result (lines_of_waiting parts.entry ≡ []) (λ b. lines_of_waiting parts.entry ≡ line_of b.line ∷ (below (line_of b.line) ++ lines_behind b.rest)) }
{
    match parts {
        Waiting::Nodes(list) => {
            let (node, rest) = list.split_first()?;
            Some(Begun {
                line: Line::Node(node),
                rest: Some(Waiting::Nodes(rest)),
            })
        }
        Waiting::Rules(list) => {
            let (cover, rest) = list.split_first()?;
            Some(Begun {
                line: Line::Rule(cover),
                rest: Some(Waiting::Rules(rest)),
            })
        }
        Waiting::Case(case) => Some(Begun {
            line: Line::Case(case),
            rest: None,
        }),
        Waiting::Checks(list) => {
            let (check, rest) = list.split_first()?;
            Some(Begun {
                line: Line::Check(check),
                rest: Some(Waiting::Checks(rest)),
            })
        }
    }
}

/// The line that was begun; what stands below it and behind it waits from now on.
fn start<'a>(waiting: &mut Vec<Waiting<'a>>, begun: Begun<'a>) -> Result<Line<'a>, Memory>
    ensures line { IfOk result (λ line. line_of line ≡ line_of begun.entry.line) }
    ensures waiting { OnOk result (lines_in_stack waiting.new.items ≡ below (line_of begun.entry.line) ++ (lines_behind begun.entry.rest ++ lines_in_stack waiting.old.items)) }
{
    let Begun { line, rest } = begun;
    put_behind(waiting, rest)?;
    put_below(waiting, &line)?;
    Ok(line)
}

fn put_behind<'a>(waiting: &mut Vec<Waiting<'a>>, rest: Option<Waiting<'a>>) -> Result<(), Memory>
    ensures { OnOk result (lines_in_stack waiting.new.items ≡ lines_behind rest.entry ++ lines_in_stack waiting.old.items) }
{
    match rest {
        None => Ok(()),
        Some(parts) => put(waiting, parts),
    }
}

fn put_below<'a>(waiting: &mut Vec<Waiting<'a>>, line: &Line<'a>) -> Result<(), Memory>
    ensures { OnOk result (lines_in_stack waiting.new.items ≡ below (line_of line.now) ++ lines_in_stack waiting.old.items) }
{
    match line {
        Line::Node(node) => put_below_node(waiting, node),
        Line::Rule(cover) => put(waiting, Waiting::Case(&cover.case)),
        Line::Case(case) => put_below_case(waiting, case),
        Line::Check(check) => put(waiting, Waiting::Case(&check.case)),
    }
}

fn put_below_node<'a>(waiting: &mut Vec<Waiting<'a>>, node: &'a Node) -> Result<(), Memory>
    ensures { OnOk result (lines_in_stack waiting.new.items ≡ below_tree (tree_of node.now) ++ lines_in_stack waiting.old.items) }
{
    match node {
        Node::Pos { children, .. } => put(waiting, Waiting::Nodes(children.as_slice())),
        Node::Neg { covers, .. } => put(waiting, Waiting::Rules(covers.as_slice())),
        Node::Loop { .. } | Node::Seen { .. } | Node::Test { .. } => Ok(()),
    }
}

#[tactic(auto, using(crate::proofs::WalkLemmas::side_by_side))]
fn put_below_case<'a>(waiting: &mut Vec<Waiting<'a>>, case: &'a Case) -> Result<(), Memory>
    ensures { OnOk result (lines_in_stack waiting.new.items ≡ below_case (branch_of case.now) ++ lines_in_stack waiting.old.items) }
{
    match case {
        Case::Split { first, second, .. } => {
            put(waiting, Waiting::Case(second.as_ref()))?;
            put(waiting, Waiting::Case(first.as_ref()))
        }
        Case::Void { .. } => Ok(()),
        Case::Leaf { children, .. } | Case::Head { children } => {
            put(waiting, Waiting::Nodes(children.as_slice()))
        }
    }
}
