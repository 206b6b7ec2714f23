//! The tree that lines make.
ghost use Rattle.std.specs.Prelude.{◌≡◌, IfOk, OnOk};
ghost use Rattle.scasp_search_trees.specs.Stacked.{built_of};
ghost use Rattle.scasp_cert.specs.Certificate.{checks_of};
ghost use Rattle.scasp_cert.specs.View.{trees_of};
ghost use Rattle.scasp_search_rules.specs.Successors.Trees.{built, is_literal, line_of, literal_lines, put};

use scasp_cert::{Case, Checks, Node, Nodes};
use scasp_list::Memory;
use scasp_search_rules::{Line, Lines};
use scasp_search_trees::{
    Stacks, put_case, put_check, put_head, put_leaf, put_neg, put_node, put_pos, put_rule,
    put_split, trees_and_checks,
};
use scasp_syntax::{Hint, PlaceList};
use std::alloc::Global;

fn is_literal(line: &Line) -> bool
    ensures { result ≡ is_literal line.now }
{
    match line {
        Line::Pos { .. } | Line::Neg { .. } => true,
        Line::Loop { .. }
        | Line::Seen { .. }
        | Line::Test(_)
        | Line::Rule { .. }
        | Line::Check { .. }
        | Line::Split { .. }
        | Line::Void
        | Line::Leaf(_)
        | Line::Head(_) => false,
    }
}

/// The numbers of the lines of literals that are gone into, where the lines are numbered from 1.
pub(crate) fn literal_lines(alloc: Global, lines: &[Line]) -> Result<PlaceList, Memory>
    ensures { IfOk result (λ made. made ≡ literal_lines 1 lines.now) }
{
    let mut made = PlaceList::new(alloc);
    for (place, line) in lines.iter().enumerate() {
        if is_literal(line) {
            made.push(place as u64 + 1)?;
        }
    }
    Ok(made)
}

/// The line of the literal of this number.
fn line_of(ats: &[u64], number: u64) -> u64
    ensures { result ≡ line_of ats.now number }
{
    match ats.get(number as usize) {
        Some(at) => *at,
        None => 0,
    }
}

/// Puts what the line makes of what stands on the stacks there.
fn put(alloc: Global, ats: &[u64], line: Line, stacks: &mut Stacks) -> Result<(), Memory>
    ensures { OnOk result (built_of stacks.new ≡ put ats.now line (built_of stacks.old)) }
{
    match line {
        Line::Pos {
            atom,
            rule,
            terms,
            children,
        } => put_pos(alloc, atom, rule, terms, children, stacks),
        Line::Neg { atom, rules } => put_neg(alloc, atom, rules, stacks),
        Line::Loop { lit, literal } => {
            let at = line_of(ats, literal);
            put_node(Node::Loop { lit, at }, stacks)
        }
        Line::Seen { lit, literal } => {
            let at = line_of(ats, literal);
            put_node(Node::Seen { lit, at }, stacks)
        }
        Line::Test(con) => {
            let hint = Hint::Terms;
            put_node(Node::Test { con, hint }, stacks)
        }
        Line::Rule { rule, .. } => put_rule(rule, stacks),
        Line::Check { clause, .. } => put_check(clause, stacks),
        Line::Split { constraint, .. } => put_split(alloc, constraint, stacks),
        Line::Void => put_case(Case::Void { hint: Hint::Terms }, stacks),
        Line::Leaf(item) => put_leaf(alloc, item, item, stacks),
        Line::Head(count) => put_head(alloc, count, stacks),
    }
}

/// What the lines make.
#[tactic(auto, using(crate::proofs::FinishedLemmas::BuiltLemmas::onto_last, crate::proofs::FinishedLemmas::BuiltLemmas::onto_none))]
fn built(alloc: Global, ats: &[u64], lines: Lines) -> Result<Stacks, Memory>
    ensures { IfOk result (λ made. built_of made ≡ built ats.now lines) }
{
    let mut stacks = Stacks::new(alloc);
    let mut rest = lines.into_vec();
    while let Some(line) = rest.pop() {
        put(alloc, ats, line, &mut stacks)?;
    }
    Ok(stacks)
}

/// The trees and the checks that the lines make, in which the literals have these lines.
pub(crate) fn trees_built(
    alloc: Global,
    ats: &[u64],
    lines: Lines,
) -> Result<(Nodes, Checks), Memory>
    ensures trees { IfOk result (λ made. trees_of made.0 ≡ (built ats.now lines).nodes) }
    ensures checks { IfOk result (λ made. checks_of made.1 ≡ (built ats.now lines).checks) }
{
    let stacks = built(alloc, ats, lines)?;
    trees_and_checks(alloc, stacks)
}
