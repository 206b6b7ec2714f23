//! The tests of a line, by what stands on it.
ghost use Rattle.std.specs.Prelude.{◌≡◌, ◌&&◌, length, nat_lt, true, OnOk};
ghost use Rattle.scasp_cert.specs.Trees.{covering, listed, neg_tree, pos_tree};
ghost use Rattle.scasp_cert.specs.View.{branch_of, covers_of, tree_of, trees_of};
ghost use Rattle.scasp_lines_places.specs.Dues.DueView.{due_value};
ghost use Rattle.scasp_lines.specs.Contexts.{context as context_of};
ghost use Rattle.scasp_lines_places.specs.Places.View.{body_of, place_of};
ghost use Rattle.scasp_syntax.specs.Programs.{numbered};
ghost use Rattle.scasp_checker_rules.specs.LineFaults.{case_faults, check_faults, line_faults, node_faults};
ghost use Rattle.scasp_checker_rules.specs.Refusals.{of_some};
ghost use Rattle.scasp_checker_answer.specs.Judged.{Judges};
ghost use Rattle.scasp_checker_lines.specs.LineFaults.Whole.{whole};
ghost use Rattle.scasp_checker_lines.specs.TableFaults.Tables.{Tells};
ghost use Rattle.scasp_lines_walk.specs.Traversal.View.{line_of};
ghost use Rattle.scasp_checker.specs.Walk.Checked.{AreBelow};
ghost use Rattle.scasp_checker.specs.Walk.Rules.{HasRules};

use crate::walk::counts::item_count;
use crate::walk::rules::{Rules, names_its_rules};
use crate::walk::tabled::Tabled;
use scasp_cert::{Case, Covers, Node, Nodes};
use scasp_checker_answer::{CheckErr, has_count_of, want};
use scasp_checker_lines::{
    Common, accept_head, accept_leaf, accept_literal, accept_loop, accept_positive, accept_seen,
    accept_split, accept_test, accept_void, asks_negated,
};
use scasp_checker_rules::Reason;
use scasp_lines_places::{Body, Due, Place};
use scasp_lines_walk::{Line, Part};
use scasp_syntax::{Atom, Con, Program, Terms};
use std::alloc::Global;

/// Tests a line of a positive literal.
fn accept_rule(
    alloc: Global,
    tabled: &Tabled,
    at: u64,
    here: &Place,
    due: &Due,
    atom: &Atom,
    rule: u64,
    terms: &Terms,
    children: &Nodes,
) -> Result<(), CheckErr>
    ensures { Judges result (node_faults (whole tabled.now.common) at (place_of here.now) (due_value due.now) (pos_tree atom.now rule terms.now (listed (trees_of children.now)))) }
{
    accept_positive(alloc, &tabled.common, at, here, due, atom, rule, terms)?;
    let items = item_count(alloc, tabled.common.program, rule)?;
    want(at, Reason::WrongChildren, has_count_of(children, items))
}

/// Tests a line of a negated literal.
fn accept_negated(
    alloc: Global,
    common: &Common,
    rules: &Rules,
    at: u64,
    here: &Place,
    due: &Due,
    atom: &Atom,
    covers: &Covers,
) -> Result<(), CheckErr>
    requires { HasRules rules.now common.now.program.now.clauses }
    ensures { Judges result (node_faults (whole common.now) at (place_of here.now) (due_value due.now) (neg_tree atom.now (covering (covers_of covers.now)))) }
{
    let terms = Terms::new(alloc);
    accept_literal(
        alloc,
        common,
        at,
        here,
        due,
        asks_negated(due),
        false,
        atom,
        &terms,
    )?;
    want(
        at,
        Reason::UncoveredCase,
        names_its_rules(rules, atom.pred(), covers),
    )
}

/// Tests a line of a node.
fn accept_node(
    alloc: Global,
    tabled: &Tabled,
    rules: &Rules,
    context: &mut Vec<Con>,
    at: u64,
    here: &Place,
    due: &Due,
    node: &Node,
) -> Result<(), CheckErr>
    requires tells { Tells tabled.now.table tabled.now.common }
    requires rules { HasRules rules.now tabled.now.common.program.now.clauses }
    requires context { context.old.items ≡ context_of (whole tabled.now.common).given (place_of here.now).opened }
    ensures judges { Judges result (node_faults (whole tabled.now.common) at (place_of here.now) (due_value due.now) (tree_of node.now)) }
    ensures stays { OnOk result (context.new.items ≡ context.old.items) }
{
    let common = &tabled.common;
    match node {
        Node::Pos {
            atom,
            rule,
            terms,
            children,
        } => accept_rule(alloc, tabled, at, here, due, atom, *rule, terms, children),
        Node::Neg { atom, covers } => accept_negated(
            alloc, common, rules, at, here, due, atom, covers,
        ),
        Node::Loop { lit, at: to } => accept_loop(alloc, common, at, here, due, lit, *to),
        Node::Seen { lit, at: to } => {
            accept_seen(alloc, common, &tabled.table, at, here, due, lit, *to)
        }
        Node::Test { con, hint } => {
            accept_test(alloc, common, context, at, here, due, con, hint)
        }
    }
}

/// Tests a line of a case.
fn accept_case(
    alloc: Global,
    tabled: &Tabled,
    context: &[Con],
    at: u64,
    next: u64,
    here: &Place,
    body: &Body,
    bare: bool,
    case: &Case,
) -> Result<(), CheckErr>
    requires { context.now ≡ context_of (whole tabled.now.common).given (place_of here.now).opened }
    ensures { Judges result (case_faults (whole tabled.now.common) at next (place_of here.now) (body_of body.now bare) (branch_of case.now)) }
{
    match case {
        Case::Split { con, .. } => accept_split(alloc, &tabled.common, at, next, here, con),
        Case::Void { hint } => accept_void(alloc, &tabled.common, context, at, here, hint),
        Case::Leaf { item, children } => accept_leaf(at, body, *item, children),
        Case::Head { children } => accept_head(at, body, children),
    }
}

/// Whether there is a clause of this number, and it lies above the one that was checked before.
fn comes_next(program: &Program, clause: u64, before: u64) -> bool
    ensures { result ≡ (of_some (numbered program.now.clauses clause) (λ c. true) && nat_lt before clause) }
{
    match program.clause(clause) {
        Some(_) => before < clause,
        None => false,
    }
}

/// Tests that the clause is there and comes behind those that were checked on lines before, the last of which is `before`, or 0.
#[tactic(auto, using(crate::proofs::WalkLemmas::CheckedLemmas::ascends))]
fn accept_check(tabled: &Tabled, at: u64, clause: u64, before: u64) -> Result<(), CheckErr>
    requires { AreBelow (whole tabled.now.common) at before }
    ensures { Judges result (check_faults (whole tabled.now.common) at clause) }
{
    want(
        at,
        Reason::WrongCheck,
        comes_next(tabled.common.program, clause, before),
    )
}

/// Tests a line, where `context` is the list of its context, which is as it was then, and `before` the clause that was checked
/// last on lines before it, or 0.
pub(crate) fn accept_line(
    alloc: Global,
    tabled: &Tabled,
    rules: &Rules,
    context: &mut Vec<Con>,
    line: &Line,
    before: u64,
) -> Result<(), CheckErr>
    requires tells { Tells tabled.now.table tabled.now.common }
    requires rules { HasRules rules.now tabled.now.common.program.now.clauses }
    requires context { context.old.items ≡ context_of (whole tabled.now.common).given (place_of line.now.here).opened }
    requires below { AreBelow (whole tabled.now.common) line.now.at before }
    ensures judges { Judges result (line_faults (whole tabled.now.common) (line_of line.now)) }
    ensures stays { OnOk result (context.new.items ≡ context.old.items) }
{
    match &line.part {
        Part::Node { due, node } => accept_node(
            alloc, tabled, rules, context, line.at, &line.here, due, *node,
        ),
        Part::Rule { .. } => Ok(()),
        Part::Check { clause, .. } => accept_check(tabled, line.at, *clause, before),
        Part::Case { body, bare, case } => accept_case(
            alloc,
            tabled,
            context.as_slice(),
            line.at,
            line.next,
            &line.here,
            body.as_ref(),
            *bare,
            *case,
        ),
    }
}
