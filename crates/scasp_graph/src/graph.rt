//! Graphs whose nodes are numbers, and what can be reached in them.
ghost use Rattle.std.specs.Prelude.{◌≡◌, ℕ, true, Some, not, ◌<◌, ◌≤◌, length, IfOk, OnOk};
ghost use Rattle.std.specs.List.{Contains};
ghost use Rattle.scasp_graph.specs.Inside.Graphs.{AreBelow, AreClear, EndsBelow, IsGraph, IsReach, is_marked, mark_of, odd_of};
ghost use Rattle.scasp_syntax.specs.Same.{same_bool};
ghost use Rattle.scasp_graph.specs.Inside.Searching.{with_mark, with_node};

use scasp_name::Memory;
use std::alloc::Global;

/// An edge between two nodes, negated or not.
#[derive(Clone, Copy, Debug)]
pub struct Edge {
    pub from: usize,
    pub to: usize,
    pub negated: bool,
}

/// Edges between nodes that are numbered below `size`. Edges are linked by their numbers counted from 1; 0 is none:
/// `first` has the last edge from each node, `link` for each edge the one before it from the same node.
#[derive(Debug, Drop)]
pub struct Graph {
    pub size: usize,
    pub edges: Vec<Edge>,
    pub first: Vec<usize>,
    pub link: Vec<usize>,
}

impl Graph {
    /// The graph of these edges.
    pub fn new(alloc: Global, size: usize, edges: Vec<Edge>) -> Result<Graph, Memory>
        requires { EndsBelow size edges.items }
        ensures graph { IfOk result (λ g. IsGraph g) }
        ensures size { IfOk result (λ g. g.size ≡ size) }
        ensures edges { IfOk result (λ g. g.edges.items ≡ edges.items) }
    {
        let mut first = vec![in alloc; 0usize; size]?;
        let mut link = Vec::new(alloc);
        for (place, edge) in edges.iter().enumerate() {
            link.push(first[edge.from])?;
            first[edge.from] = place + 1;
        }
        Ok(Graph {
            size,
            edges,
            first,
            link,
        })
    }

    /// Marks the start, and each node to which a walk leads from there within the marked nodes of `inside`, with
    /// whether that walk is odd. The nodes, in the order in which they are found.
    pub fn search(
        &self,
        alloc: Global,
        start: usize,
        inside: &[Option<bool>],
        marks: &mut Vec<Option<bool>>,
    ) -> Result<Vec<usize>, Memory>
        requires graph { IsGraph self.now }
        requires start { start < self.now.size }
        requires sized { length inside.now ≡ self.now.size }
        requires inside { is_marked inside.now start ≡ true }
        requires clear { AreClear self.now.size marks.old.items }
        ensures { IfOk result (λ found. IsReach self.now.size self.now.edges.items inside.now start marks.new.items found.items) }
    {
        let mut queue = Vec::new(alloc);
        mark(inside, marks, &mut queue, start, false)?;
        let mut done = 0usize;
        while done < queue.len() {
            let node = queue[done];
            let parity = parity_of(marks, node);
            let mut at = self.first[node];
            while at > 0 {
                let edge = self.edges[at - 1];
                mark(
                    inside,
                    marks,
                    &mut queue,
                    edge.to,
                    differ(parity, edge.negated),
                )?;
                at = self.link[at - 1];
            }
            done += 1;
        }
        Ok(queue)
    }
}

/// The parity that a marked node has.
pub fn parity_of(marks: &[Option<bool>], node: usize) -> bool
    requires { node < length marks.now }
    ensures marked { is_marked marks.now node ≡ true → mark_of marks.now node ≡ Some result }
    ensures value { result ≡ odd_of marks.now node }
{
    match marks[node] {
        Some(parity) => parity,
        None => false,
    }
}

/// Whether one of the two is true and the other is not.
pub fn differ(first: bool, second: bool) -> bool
    ensures { result ≡ not (same_bool first second) }
{
    first != second
}

/// Marks a node of `inside` and puts it into the queue unless it is marked.
fn mark(
    inside: &[Option<bool>],
    marks: &mut Vec<Option<bool>>,
    queue: &mut Vec<usize>,
    node: usize,
    parity: bool,
) -> Result<(), Memory>
    requires within { node < length marks.old.items }
    requires sized { length inside.now ≡ length marks.old.items }
    ensures marks { OnOk result (marks.new.items ≡ with_mark inside.now marks.old.items node parity) }
    ensures queue { OnOk result (queue.new.items ≡ with_node inside.now marks.old.items queue.old.items node) }
{
    if inside[node].is_some() && marks[node].is_none() {
        queue.push(node)?;
        marks[node] = Some(parity);
    }
    Ok(())
}

/// Takes the marks away, all of which are at these nodes.
pub fn clear(marks: &mut Vec<Option<bool>>, nodes: &[usize])
    requires within { AreBelow (length marks.old.items) nodes.now }
    requires listed { (v : ℕ) → is_marked marks.old.items v ≡ true → Contains nodes.now v }
    ensures { AreClear (length marks.old.items) marks.new.items }
{
    for node in nodes {
        marks[*node] = None;
    }
}
