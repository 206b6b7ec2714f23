//! The rows that stand in a certificate.

ghost use Rattle.std.specs.Prelude.{IsTrue, OnOk};
ghost use Rattle.std.specs.List.{flat_map};
ghost use Rattle.scasp_cert.specs.Certificate.{certificate_of, checks_of};
ghost use Rattle.scasp_cert.specs.Trees.{covering, listed};
ghost use Rattle.scasp_cert.specs.View.{branch_of, covers_of, tree_of, trees_of};
ghost use Rattle.scasp_cert.specs.WalkView.{line_of};
ghost use Rattle.scasp_law_promise.specs.OwnRows.{are_normal, constraints_at, constraints_below, constraints_by, constraints_in, constraints_of_case, constraints_of_tree, constraints_on, has_normal_rows, is_con_normal};

use scasp_cert::{Case, Cert, Checks, Covers, Line, Node, Nodes, Walk};
use scasp_list::Memory;
use scasp_syntax::{Con, Cons};
use std::alloc::Global;

/// Goes through the rows that stand in the certificate. Each is in normal form, as every `Row` is; so a caller
/// learns of the certificate what the laws of this crate ask of its rows. It goes down by calls only where no memory is there
/// for the stack of a walk.
pub fn see_rows(cert: &Cert)
    ensures { IsTrue (has_normal_rows (certificate_of cert.now)) }
{
    match see_lines(*cert.trees.list.allocator(), cert) {
        Ok(()) => {}
        Err(Memory) => see_parts(cert),
    }
}

/// The same by a walk over the lines.
#[tactic(auto, using(crate::proofs::SeenRows::normal_append))]
fn see_lines(alloc: Global, cert: &Cert) -> Result<(), Memory>
    ensures { OnOk result (IsTrue (has_normal_rows (certificate_of cert.now))) }
{
    see_constraints(&cert.given);
    let mut walk = Walk::of(alloc, cert)?;
    while let Some(line) = walk.next()? {
        see_line(&line);
    }
    Ok(())
}

fn see_line(line: &Line<'_>)
    ensures { IsTrue (are_normal (constraints_on (line_of line.now))) }
{
    match line {
        Line::Node(node) => see_own_of_node(node),
        Line::Case(case) => see_own_of_case(case),
        Line::Rule(_) | Line::Check(_) => {}
    }
}

fn see_own_of_node(node: &Node)
    ensures { IsTrue (are_normal (constraints_of_tree (tree_of node.now))) }
{
    match node {
        Node::Test { con, .. } => see_constraint(con),
        Node::Pos { .. } | Node::Neg { .. } | Node::Loop { .. } | Node::Seen { .. } => {}
    }
}

fn see_own_of_case(case: &Case)
    ensures { IsTrue (are_normal (constraints_of_case (branch_of case.now))) }
{
    match case {
        Case::Split { con, .. } => see_constraint(con),
        Case::Void { .. } | Case::Leaf { .. } | Case::Head { .. } => {}
    }
}

/// The same by calls.
#[tactic(auto, using(crate::proofs::SeenRows::normal_append))]
fn see_parts(cert: &Cert)
    ensures { IsTrue (has_normal_rows (certificate_of cert.now)) }
{
    see_constraints(&cert.given);
    see_nodes(&cert.trees);
    see_checks(&cert.checks);
}

fn see_constraint(con: &Con)
    ensures { IsTrue (is_con_normal con.now) }
{
    match con {
        Con::Row(row) => {
            let _ = row.op();
        }
        Con::Eq(..) | Con::Neq(..) | Con::NotShape(..) | Con::Num(_) | Con::NotNum(_) => {}
    }
}

fn see_constraints(cons: &Cons)
    ensures { IsTrue (are_normal cons.now) }
{
    for con in cons.as_slice() {
        see_constraint(con);
    }
}

#[tactic(auto, using(crate::proofs::SeenRows::normal_append))]
fn see_checks(checks: &Checks)
    ensures { IsTrue (are_normal (flat_map (λ k. constraints_at k.1) (checks_of checks.now))) }
{
    for check in checks.as_slice() {
        see_case(&check.case);
    }
}

#[cycle(rows)]
fn see_node(node: &Node)
    ensures { IsTrue (are_normal (constraints_by (tree_of node.now))) }
{
    match node {
        Node::Pos { children, .. } => see_nodes(children),
        Node::Neg { covers, .. } => see_covers(covers),
        Node::Loop { .. } | Node::Seen { .. } => {}
        Node::Test { con, .. } => see_constraint(con),
    }
}

#[cycle(rows)]
#[tactic(auto, using(crate::proofs::SeenRows::normal_append))]
fn see_nodes(nodes: &Nodes)
    ensures { IsTrue (are_normal (constraints_below (listed (trees_of nodes.now)))) }
{
    for node in &nodes.list {
        see_node(node);
    }
}

#[cycle(rows)]
#[tactic(auto, using(crate::proofs::SeenRows::normal_append))]
fn see_covers(covers: &Covers)
    ensures { IsTrue (are_normal (constraints_in (covering (covers_of covers.now)))) }
{
    for cover in &covers.list {
        see_case(&cover.case);
    }
}

#[cycle(rows)]
#[tactic(auto, using(crate::proofs::SeenRows::normal_append))]
fn see_case(case: &Case)
    ensures { IsTrue (are_normal (constraints_at (branch_of case.now))) }
{
    match case {
        Case::Split { con, first, second } => {
            see_constraint(con);
            see_case(first);
            see_case(second);
        }
        Case::Void { .. } => {}
        Case::Leaf { children, .. } | Case::Head { children } => see_nodes(children),
    }
}
