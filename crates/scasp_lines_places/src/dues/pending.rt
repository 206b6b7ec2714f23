//! Parts of a certificate whose universal variables have still to be counted.
ghost use Rattle.std.specs.Prelude.{◌≡◌, ◌++◌, ◌∷◌, [], List, OnOk, map};
ghost use Rattle.scasp_cert.specs.Certificate.{check_of};
ghost use Rattle.scasp_cert.specs.Trees.{covering, listed};
ghost use Rattle.scasp_cert.specs.View.{branch_of, cover_of, tree_of};
ghost use Rattle.scasp_lines_places.specs.Dues.Pending.{below_node, checks, left, nodes, one_case, room_here, rules};
ghost use Rattle.scasp_lines_places.specs.Dues.PendingView.{pending_of, waiting_of};
ghost use Rattle.scasp_lines.specs.Rooms.{arguments, room_of_clause, room_of_con};
ghost use Rattle.scasp_syntax.specs.Programs.{numbered};
ghost use Rattle.scasp_syntax.specs.View.{tm_of};
ghost use Rattle.scasp_syntax.specs.declared.clause.Clause.{Clause as ThisClause};

use scasp_cert::{Case, Check, Cover, Node};
use scasp_list::Memory;
use scasp_syntax::{Con, Program, Term};

/// Parts of a certificate, side by side.
#[derive(Drop)]
pub(crate) enum Pending<'a> {
    Nodes(&'a [Node]),
    /// Rules under a negated literal.
    Rules(&'a [Cover]),
    Case(&'a Case),
    Checks(&'a [Check]),
}

// ---- what is left of parts

/// Puts parts behind those that wait.
pub(crate) fn put<'a>(waiting: &mut Vec<Pending<'a>>, part: Pending<'a>) -> Result<(), Memory>
    ensures { OnOk result (waiting_of waiting.new.items ≡ waiting_of waiting.old.items ++ pending_of part.entry ∷ []) }
{
    waiting.push(part)?;
    Ok(())
}

/// Puts what stands below a node behind the parts that wait.
fn put_below<'a>(node: &'a Node, waiting: &mut Vec<Pending<'a>>) -> Result<(), Memory>
    ensures { OnOk result (waiting_of waiting.new.items ≡ waiting_of waiting.old.items ++ below_node (tree_of node.now)) }
{
    match node {
        Node::Pos { children, .. } => put(waiting, Pending::Nodes(children.as_slice())),
        Node::Neg { covers, .. } => put(waiting, Pending::Rules(covers.as_slice())),
        Node::Loop { .. } | Node::Seen { .. } | Node::Test { .. } => Ok(()),
    }
}

/// Puts what is left of nodes behind the parts that wait.
fn put_nodes<'a>(rest: &'a [Node], waiting: &mut Vec<Pending<'a>>) -> Result<(), Memory>
    ensures { OnOk result (waiting_of waiting.new.items ≡ waiting_of waiting.old.items ++ left (nodes (listed (map tree_of rest.now)))) }
{
    match rest.split_first() {
        None => Ok(()),
        Some((node, others)) => {
            put(waiting, Pending::Nodes(others))?;
            put_below(node, waiting)
        }
    }
}

/// Puts what is left of rules behind the parts that wait.
fn put_rules<'a>(rest: &'a [Cover], waiting: &mut Vec<Pending<'a>>) -> Result<(), Memory>
    ensures { OnOk result (waiting_of waiting.new.items ≡ waiting_of waiting.old.items ++ left (rules (covering (map cover_of rest.now)))) }
{
    match rest.split_first() {
        None => Ok(()),
        Some((cover, others)) => {
            put(waiting, Pending::Rules(others))?;
            put(waiting, Pending::Case(&cover.case))
        }
    }
}

/// Puts what stands below a case behind the parts that wait.
fn put_case<'a>(case: &'a Case, waiting: &mut Vec<Pending<'a>>) -> Result<(), Memory>
    ensures { OnOk result (waiting_of waiting.new.items ≡ waiting_of waiting.old.items ++ left (one_case (branch_of case.now))) }
{
    match case {
        Case::Split { first, second, .. } => {
            put(waiting, Pending::Case(second))?;
            put(waiting, Pending::Case(first))
        }
        Case::Void { .. } => Ok(()),
        Case::Leaf { children, .. } => put(waiting, Pending::Nodes(children.as_slice())),
        Case::Head { children } => put(waiting, Pending::Nodes(children.as_slice())),
    }
}

/// Puts what is left of checks behind the parts that wait.
fn put_checks<'a>(rest: &'a [Check], waiting: &mut Vec<Pending<'a>>) -> Result<(), Memory>
    ensures { OnOk result (waiting_of waiting.new.items ≡ waiting_of waiting.old.items ++ left (checks (map check_of rest.now))) }
{
    match rest.split_first() {
        None => Ok(()),
        Some((check, others)) => {
            put(waiting, Pending::Checks(others))?;
            put(waiting, Pending::Case(&check.case))
        }
    }
}

/// Puts the parts behind the first, and those below it, behind the parts that wait.
pub(crate) fn put_left<'a>(parts: Pending<'a>, waiting: &mut Vec<Pending<'a>>) -> Result<(), Memory>
    ensures { OnOk result (waiting_of waiting.new.items ≡ waiting_of waiting.old.items ++ left (pending_of parts.entry)) }
{
    match parts {
        Pending::Nodes(rest) => put_nodes(rest, waiting),
        Pending::Rules(rest) => put_rules(rest, waiting),
        Pending::Case(case) => put_case(case, waiting),
        Pending::Checks(rest) => put_checks(rest, waiting),
    }
}

// ---- what begins at the first of the parts itself

/// At most so many universal variables begin at the clause of this number.
fn room_of_clause(program: &Program, number: u64) -> u64
    ensures { result ≡ room_of_clause (numbered program.now.clauses number) }
{
    match program.clause(number) {
        None => 0,
        Some(clause) => clause.vars,
    }
}

/// The number of arguments of the term.
fn arguments(term: &Term) -> u64
    ensures { result ≡ arguments (tm_of term.now) }
{
    match term {
        Term::Var(_) | Term::Num(_) => 0,
        Term::App(_, args) => args.len() as u64,
    }
}

/// At most so many universal variables begin at a split by the constraint.
fn room_of_con(constraint: &Con) -> u64
    ensures { result ≡ room_of_con constraint.now }
{
    match constraint {
        Con::Eq(_, right) | Con::Neq(_, right) => arguments(right),
        Con::NotShape(_, _, _) | Con::Num(_) | Con::NotNum(_) | Con::Row(_) => 0,
    }
}

fn room_of_rules(program: &Program, rest: &[Cover]) -> u64
    ensures { result ≡ room_here program.now.clauses (rules (covering (map cover_of rest.now))) }
{
    match rest.split_first() {
        None => 0,
        Some((cover, _)) => room_of_clause(program, cover.rule),
    }
}

fn room_of_case(case: &Case) -> u64
    ensures { (cs : List ThisClause) → result ≡ room_here cs (one_case (branch_of case.now)) }
{
    match case {
        Case::Split { con, .. } => room_of_con(con),
        Case::Void { .. } | Case::Leaf { .. } | Case::Head { .. } => 0,
    }
}

fn room_of_checks(program: &Program, rest: &[Check]) -> u64
    ensures { result ≡ room_here program.now.clauses (checks (map check_of rest.now)) }
{
    match rest.split_first() {
        None => 0,
        Some((check, _)) => room_of_clause(program, check.clause),
    }
}

/// At most so many universal variables begin at the first of the parts itself.
pub(crate) fn room_here(program: &Program, parts: &Pending) -> u64
    ensures { result ≡ room_here program.now.clauses (pending_of parts.now) }
{
    match parts {
        Pending::Nodes(_) => 0,
        Pending::Rules(rest) => room_of_rules(program, *rest),
        Pending::Case(case) => room_of_case(*case),
        Pending::Checks(rest) => room_of_checks(program, *rest),
    }
}
