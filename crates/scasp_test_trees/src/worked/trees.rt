//! Certificates from lines, made from the last line to the first: what stands below a line was put on a stack before.
use crate::worked::made::{applied, con, cons, hint, terms};
use crate::worked::written::{Line, Lines, Sample, Told, Tried, Written};
use scasp_cert::{Case, Cert, Check, Checks, Clashes, Cover, Covers, Node, Nodes};
use scasp_name::Memory;
use scasp_syntax::{Cons, Lit, PredMaps, Terms};
use scasp_test_samples::{Name, map_of};
use std::alloc::Global;

/// A part of a certificate, and how deep it stands.
#[derive(Drop)]
struct Deep<T> {
    depth: u64,
    part: T,
}

/// The parts that were made, the first line of each kind at the end.
#[derive(Drop)]
struct Stacks {
    nodes: Vec<Deep<Node>>,
    covers: Vec<Deep<Cover>>,
    cases: Vec<Deep<Case>>,
    checks: Vec<Deep<Check>>,
}

/// The first part of the stack, where it stands so deep.
fn take<T: Drop>(stack: &mut Vec<Deep<T>>, depth: u64) -> Option<T> {
    match stack.last() {
        Some(last) => {
            if last.depth != depth {
                return None;
            }
        }
        None => return None,
    }
    match stack.pop() {
        Some(deep) => Some(deep.part),
        None => None,
    }
}

fn nodes_at(alloc: Global, stacks: &mut Stacks, depth: u64) -> Result<Nodes, Memory> {
    let mut all = Nodes::new(alloc);
    for _ in 0..stacks.nodes.len() {
        match take(&mut stacks.nodes, depth) {
            Some(node) => all.push(node)?,
            None => return Ok(all),
        }
    }
    Ok(all)
}

fn covers_at(alloc: Global, stacks: &mut Stacks, depth: u64) -> Result<Covers, Memory> {
    let mut all = Covers::new(alloc);
    for _ in 0..stacks.covers.len() {
        match take(&mut stacks.covers, depth) {
            Some(cover) => all.push(cover)?,
            None => return Ok(all),
        }
    }
    Ok(all)
}

fn checks_of(alloc: Global, stacks: &mut Stacks) -> Result<Checks, Memory> {
    let mut all = Checks::new(alloc);
    for _ in 0..stacks.checks.len() {
        match take(&mut stacks.checks, 0) {
            Some(check) => all.push(check)?,
            None => return Ok(all),
        }
    }
    Ok(all)
}

/// A case that is missing is want of memory, which no table expects.
fn case_at(stacks: &mut Stacks, depth: u64) -> Result<Case, Memory> {
    match take(&mut stacks.cases, depth) {
        Some(case) => Ok(case),
        None => Err(Memory),
    }
}

fn literal(alloc: Global, positive: bool, name: Name) -> Result<Lit, Memory> {
    let atom = applied(alloc, name, &[])?;
    Ok(Lit { positive, atom })
}

fn push_node(stacks: &mut Stacks, depth: u64, part: Node) -> Result<(), Memory> {
    stacks.nodes.push(Deep { depth, part })?;
    Ok(())
}

fn push_case(stacks: &mut Stacks, depth: u64, part: Case) -> Result<(), Memory> {
    stacks.cases.push(Deep { depth, part })?;
    Ok(())
}

fn push_pos(
    alloc: Global,
    stacks: &mut Stacks,
    depth: u64,
    name: Name,
    args: &[Written],
    rule: u64,
    listed: &[Written],
) -> Result<(), Memory> {
    let children = nodes_at(alloc, stacks, depth.saturating_add(1))?;
    let atom = applied(alloc, name, args)?;
    let terms = terms(alloc, listed)?;
    push_node(
        stacks,
        depth,
        Node::Pos {
            atom,
            rule,
            terms,
            children,
        },
    )
}

fn push_neg(
    alloc: Global,
    stacks: &mut Stacks,
    depth: u64,
    name: Name,
    args: &[Written],
) -> Result<(), Memory> {
    let covers = covers_at(alloc, stacks, depth.saturating_add(1))?;
    let atom = applied(alloc, name, args)?;
    push_node(stacks, depth, Node::Neg { atom, covers })
}

fn push_rule(stacks: &mut Stacks, depth: u64, rule: u64) -> Result<(), Memory> {
    let case = case_at(stacks, depth.saturating_add(1))?;
    let part = Cover { rule, case };
    stacks.covers.push(Deep { depth, part })?;
    Ok(())
}

fn push_check(stacks: &mut Stacks, depth: u64, clause: u64) -> Result<(), Memory> {
    let case = case_at(stacks, depth.saturating_add(1))?;
    let part = Check { clause, case };
    stacks.checks.push(Deep { depth, part })?;
    Ok(())
}

fn push_split(alloc: Global, stacks: &mut Stacks, depth: u64, told: Told) -> Result<(), Memory> {
    let first = Box::new(alloc, case_at(stacks, depth.saturating_add(1))?)?;
    let second = Box::new(alloc, case_at(stacks, depth.saturating_add(1))?)?;
    push_split_of(alloc, stacks, depth, told, first, second)
}

fn push_split_of(
    alloc: Global,
    stacks: &mut Stacks,
    depth: u64,
    told: Told,
    first: Box<Case>,
    second: Box<Case>,
) -> Result<(), Memory> {
    let con = con(alloc, told)?;
    push_case(stacks, depth, Case::Split { con, first, second })
}

fn push_test(
    alloc: Global,
    stacks: &mut Stacks,
    depth: u64,
    told: Told,
    tried: Tried,
) -> Result<(), Memory> {
    let con = con(alloc, told)?;
    let hint = hint(alloc, tried)?;
    push_node(stacks, depth, Node::Test { con, hint })
}

fn push_loop(
    alloc: Global,
    stacks: &mut Stacks,
    depth: u64,
    positive: bool,
    name: Name,
    at: u64,
) -> Result<(), Memory> {
    let lit = literal(alloc, positive, name)?;
    push_node(stacks, depth, Node::Loop { lit, at })
}

fn push_seen(
    alloc: Global,
    stacks: &mut Stacks,
    depth: u64,
    positive: bool,
    name: Name,
    at: u64,
) -> Result<(), Memory> {
    let lit = literal(alloc, positive, name)?;
    push_node(stacks, depth, Node::Seen { lit, at })
}

fn push_void(alloc: Global, stacks: &mut Stacks, depth: u64, tried: Tried) -> Result<(), Memory> {
    let hint = hint(alloc, tried)?;
    push_case(stacks, depth, Case::Void { hint })
}

fn push_leaf(alloc: Global, stacks: &mut Stacks, depth: u64, item: u64) -> Result<(), Memory> {
    let children = nodes_at(alloc, stacks, depth.saturating_add(1))?;
    push_case(stacks, depth, Case::Leaf { item, children })
}

fn push_line(alloc: Global, stacks: &mut Stacks, depth: u64, line: Line) -> Result<(), Memory> {
    match line {
        Line::Pos(name, args, rule, listed) => {
            push_pos(alloc, stacks, depth, name, args, rule, listed)
        }
        Line::Neg(name, args) => push_neg(alloc, stacks, depth, name, args),
        Line::Loops(positive, name, at) => push_loop(alloc, stacks, depth, positive, name, at),
        Line::Seen(positive, name, at) => push_seen(alloc, stacks, depth, positive, name, at),
        Line::Test(told, tried) => push_test(alloc, stacks, depth, told, tried),
        Line::Rule(rule) => push_rule(stacks, depth, rule),
        Line::Check(clause) => push_check(stacks, depth, clause),
        Line::Split(told) => push_split(alloc, stacks, depth, told),
        Line::Void(tried) => push_void(alloc, stacks, depth, tried),
        Line::Leaf(item) => push_leaf(alloc, stacks, depth, item),
    }
}

fn stacked(alloc: Global, lines: Lines) -> Result<Stacks, Memory> {
    let mut stacks = Stacks {
        nodes: Vec::new(alloc),
        covers: Vec::new(alloc),
        cases: Vec::new(alloc),
        checks: Vec::new(alloc),
    };
    for (depth, line) in lines.iter().rev() {
        push_line(alloc, &mut stacks, *depth, *line)?;
    }
    Ok(stacks)
}

fn with_lines(alloc: Global, sample: &Sample) -> Result<Cert, Memory> {
    let mut stacks = stacked(alloc, sample.lines)?;
    let trees = nodes_at(alloc, &mut stacks, 0)?;
    let checks = checks_of(alloc, &mut stacks)?;
    Ok(Cert {
        query: 1,
        terms: Terms::new(alloc),
        given: Cons::new(alloc),
        sample: Terms::new(alloc),
        trees,
        checks,
        clashes: Clashes::new(alloc),
        map: PredMaps::new(alloc),
    })
}

fn with_terms(alloc: Global, sample: &Sample) -> Result<Cert, Memory> {
    let mut cert = with_lines(alloc, sample)?;
    cert.terms = terms(alloc, sample.terms)?;
    cert.given = cons(alloc, sample.given)?;
    cert.sample = terms(alloc, sample.sample)?;
    Ok(cert)
}

/// The certificate of the sample.
pub fn certificate(alloc: Global, sample: &Sample) -> Result<Cert, Memory> {
    let mut cert = with_terms(alloc, sample)?;
    cert.map = map_of(alloc, sample.map)?;
    Ok(cert)
}
