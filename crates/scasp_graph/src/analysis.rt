//! The odd rules, levels and signs of a program.
ghost use Rattle.std.specs.Prelude.{◌≡◌, ◌+◌, [], ◌∷◌, ◌++◌, map, true, false, nat_eq, slice_index_or, IfOk, OnOk, length};
ghost use Rattle.std.specs.List.{flat_map, list_any};
ghost use Rattle.scasp_syntax.specs.Programs.{pred_of, body_preds, predicates};
ghost use Rattle.scasp_graph.specs.Analyses.{IsAnalysis};
ghost use Rattle.scasp_graph.specs.Inside.Components.{turned, root_of, AreComponents};
ghost use Rattle.scasp_graph.specs.Inside.Graphs.{EndsBelow, IsGraph};
ghost use Rattle.scasp_graph.specs.Inside.Levels.{AreLevels, AreOdd};
ghost use Rattle.scasp_graph.specs.Inside.Places.{numbered_edge, root_in, entry_at, entries_from, is_odd_body, odd_from};
ghost use Rattle.scasp_graph.specs.Walks.{item_dependencies, clause_dependencies, dependencies};

use crate::components::{Member, find_components};
use crate::graph::{Edge, Graph};
use crate::levels::{find_levels, find_odd};
use crate::numbering::Numbering;
use crate::occurrences::number;
use crate::order::finishing_order;
use scasp_name::Memory;
use scasp_syntax::{
    Atom, Clause, Item, Items, Pred, PredMap, PredMaps, Preds, Program, RuleList, Sequence,
};
use std::alloc::Global;

/// The odd rules of a program by their numbers, counted from 1, and its map: a level and a sign for each predicate,
/// in order of first occurrence.
///
/// A predicate depends on those in the bodies of its rules. A rule is odd where it stands in a loop through its head
/// with an odd number of negations. A level is 0 for a component that depends on no other, else one more than the
/// greatest level that it depends on. In a component without such a loop the first predicate has `+` and the others
/// follow the parity of negations; in one with such a loop all have `+`.
#[derive(Debug, Drop)]
pub struct Analysis {
    pub odd_rules: RuleList,
    pub map: PredMaps,
}

/// Puts an edge at the end for each literal of a rule's body.
fn push_edges(
    preds: &Numbering,
    head: &Atom,
    body: &Items,
    edges: &mut Vec<Edge>,
) -> Result<(), Memory>
    ensures { OnOk result (edges.new.items ≡ edges.old.items ++ map (numbered_edge preds.now) (flat_map (item_dependencies (pred_of head.now)) body.now)) }
{
    let from = preds.place(&head.pred());
    for item in body.as_slice() {
        match item {
            Item::Call(literal) => edges.push(Edge {
                from,
                to: preds.place(&literal.atom.pred()),
                negated: !literal.positive,
            })?,
            Item::Equal(_, _) | Item::Differ(_, _) | Item::Linear(_) => {}
        }
    }
    Ok(())
}

/// The edges of the program between the places of its predicates.
fn edges_of(alloc: Global, program: &Program, preds: &Numbering) -> Result<Vec<Edge>, Memory>
    ensures { IfOk result (λ edges. edges.items ≡ map (numbered_edge preds.now) (dependencies program.now)) }
{
    let mut edges = Vec::new(alloc);
    for clause in program.clauses.as_slice() {
        if let Some(head) = &clause.head {
            push_edges(preds, head, &clause.body, &mut edges)?;
        }
    }
    Ok(edges)
}

/// The edges, each turned round.
fn turned(alloc: Global, edges: &[Edge]) -> Result<Vec<Edge>, Memory>
    ensures { IfOk result (λ other. other.items ≡ map turned edges.now) }
{
    let mut other = Vec::new(alloc);
    for edge in edges {
        other.push(Edge {
            from: edge.to,
            to: edge.from,
            negated: edge.negated,
        })?;
    }
    Ok(other)
}

/// The root of the predicate's component.
fn root_in(preds: &Numbering, members: &[Member], pred: &Pred) -> usize
    ensures { result ≡ root_in preds.now members.now pred.now }
{
    match members.get(preds.place(pred)) {
        Some(member) => member.root,
        None => 0,
    }
}

/// Whether the component of this root is odd.
fn is_odd(odd: &[bool], root: usize) -> bool
    ensures { result ≡ slice_index_or odd.now root false }
{
    match odd.get(root) {
        Some(odd) => *odd,
        None => false,
    }
}

/// Whether a predicate of the body is in the component of this root.
fn has_root(preds: &Numbering, members: &[Member], root: usize, body: &Items) -> bool
    ensures { result ≡ list_any (λ q. nat_eq (root_in preds.now members.now q) root) (body_preds body.now) }
{
    for item in body.as_slice() {
        match item {
            Item::Call(literal) => {
                if root_in(preds, members, &literal.atom.pred()) == root {
                    return true;
                }
            }
            Item::Equal(_, _) | Item::Differ(_, _) | Item::Linear(_) => {}
        }
    }
    false
}

/// Whether the clause is a rule in an odd component with a predicate of that component in its body.
fn is_odd_clause(preds: &Numbering, members: &[Member], odd: &[bool], clause: &Clause) -> bool
    ensures { result ≡ is_odd_body preds.now members.now odd.now clause.now.head clause.now.body }
{
    match &clause.head {
        None => false,
        Some(head) => {
            let root = root_in(preds, members, &head.pred());
            is_odd(odd, root) && has_root(preds, members, root, &clause.body)
        }
    }
}

/// The numbers of the odd rules.
fn odd_rules_of(
    alloc: Global,
    program: &Program,
    preds: &Numbering,
    members: &[Member],
    odd: &[bool],
) -> Result<RuleList, Memory>
    ensures { IfOk result (λ numbers. numbers ≡ odd_from preds.now members.now odd.now 1 program.now.clauses) }
{
    let mut numbers = Sequence::new(alloc);
    for (place, clause) in program.clauses.as_slice().iter().enumerate() {
        if is_odd_clause(preds, members, odd, clause) {
            numbers.push(place as u64 + 1)?;
        }
    }
    Ok(numbers)
}

/// The entry of the predicate at this place.
fn entry_at(members: &[Member], levels: &[u64], odd: &[bool], place: usize, pred: Pred) -> PredMap
    ensures { result ≡ entry_at members.now levels.now odd.now place pred }
{
    let member = match members.get(place) {
        Some(member) => *member,
        None => Member {
            root: 0,
            parity: false,
            rank: 0,
        },
    };
    let level = match levels.get(member.root) {
        Some(level) => *level,
        None => 0,
    };
    let plus = is_odd(odd, member.root) || !member.parity;
    PredMap { pred, level, plus }
}

/// The entries of all predicates in order.
fn map_of(
    alloc: Global,
    preds: &Preds,
    members: &[Member],
    levels: &[u64],
    odd: &[bool],
) -> Result<PredMaps, Memory>
    ensures { IfOk result (λ entries. entries ≡ entries_from members.now levels.now odd.now 0 preds.now) }
{
    let mut entries = Sequence::new(alloc);
    for (place, pred) in preds.as_slice().iter().enumerate() {
        entries.push(entry_at(members, levels, odd, place, *pred))?;
    }
    Ok(entries)
}

/// The components of a graph: the member that each node is, and for the root of each component its level and whether it is odd.
#[derive(Drop)]
struct Parts {
    members: Vec<Member>,
    levels: Vec<u64>,
    odd: Vec<bool>,
}

/// The graph of the edges turned round.
fn graph_behind(alloc: Global, size: usize, edges: &[Edge]) -> Result<Graph, Memory>
    requires { EndsBelow size edges.now }
    ensures graph { IfOk result (λ g. IsGraph g) }
    ensures size { IfOk result (λ g. g.size ≡ size) }
    ensures edges { IfOk result (λ g. g.edges.items ≡ map turned edges.now) }
{
    Graph::new(alloc, size, turned(alloc, edges)?)
}

/// The components of the graph of these edges.
fn parts_of(alloc: Global, size: usize, edges: Vec<Edge>) -> Result<Parts, Memory>
    requires { EndsBelow size edges.items }
    ensures components { IfOk result (λ p. AreComponents size edges.items p.members.items) }
    ensures levels { IfOk result (λ p. AreLevels size edges.items p.members.items p.levels.items) }
    ensures odd { IfOk result (λ p. AreOdd size edges.items p.members.items p.odd.items) }
{
    let behind = graph_behind(alloc, size, &edges)?;
    let ahead = Graph::new(alloc, size, edges)?;
    let order = finishing_order(alloc, &ahead)?;
    let members = find_components(alloc, &ahead, &behind, &order)?;
    let levels = find_levels(alloc, &ahead, &order, &members)?;
    let odd = find_odd(alloc, &ahead.edges, &members)?;
    Ok(Parts {
        members,
        levels,
        odd,
    })
}

/// The odd rules and the map of the program.
pub fn analyse(alloc: Global, program: &Program) -> Result<Analysis, Memory>
    ensures { IfOk result (λ a. IsAnalysis program.now a) }
{
    let numbers = number(alloc, program)?;
    let preds = numbers.predicates(alloc)?;
    let edges = edges_of(alloc, program, &numbers)?;
    let parts = parts_of(alloc, preds.len(), edges)?;
    let odd_rules = odd_rules_of(alloc, program, &numbers, &parts.members, &parts.odd)?;
    let map = map_of(alloc, &preds, &parts.members, &parts.levels, &parts.odd)?;
    Ok(Analysis { odd_rules, map })
}
