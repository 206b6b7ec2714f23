//! Levels of components, and the components with an odd closed walk.
ghost use Rattle.std.specs.Prelude.{◌≡◌, ◌<◌, ℕ, true, false, length, IfOk};
ghost use Rattle.scasp_graph.specs.Inside.Components.{AreComponents};
ghost use Rattle.scasp_graph.specs.Inside.Graphs.{AreBelow, EndsBelow, IsGraph};
ghost use Rattle.scasp_graph.specs.Inside.Levels.{AreRising, IsSettled, AreLevels, AreOdd, level_sum};

use crate::components::Member;
use crate::graph::{Edge, Graph, differ};
use scasp_name::Memory;
use std::alloc::Global;

/// Raises the level of the edge's component above that on which it depends; whether it was too low.
fn raise_edge(edges: &[Edge], members: &[Member], place: usize, levels: &mut Vec<u64>) -> bool
    requires ends { EndsBelow (length levels.old.items) edges.now }
    requires components { AreComponents (length levels.old.items) edges.now members.now }
    requires rising { AreRising (length levels.old.items) edges.now members.now levels.old.items }
    requires place { place < length edges.now }
    ensures length { length levels.new.items ≡ length levels.old.items }
    ensures rising { AreRising (length levels.old.items) edges.now members.now levels.new.items }
    ensures rises { result ≡ true → level_sum levels.old.items < level_sum levels.new.items }
    ensures same { result ≡ false → levels.new.items ≡ levels.old.items }
    ensures settled { result ≡ false → IsSettled edges.now members.now levels.new.items place }
{
    let edge = edges[place];
    let from = members[edge.from].root;
    let to = members[edge.to].root;
    if from != to && levels[from] <= levels[to] {
        levels[from] = levels[to] + 1;
        return true;
    }
    false
}

/// Raises levels once for each edge; whether any was too low.
fn raise(edges: &[Edge], members: &[Member], levels: &mut Vec<u64>) -> bool
    requires ends { EndsBelow (length levels.old.items) edges.now }
    requires components { AreComponents (length levels.old.items) edges.now members.now }
    requires rising { AreRising (length levels.old.items) edges.now members.now levels.old.items }
    ensures length { length levels.new.items ≡ length levels.old.items }
    ensures rising { AreRising (length levels.old.items) edges.now members.now levels.new.items }
    ensures rises { result ≡ true → level_sum levels.old.items < level_sum levels.new.items }
    ensures settled { result ≡ false → (e : ℕ) → e < length edges.now → IsSettled edges.now members.now levels.new.items e }
{
    let mut raised = false;
    for place in 0..edges.len() {
        if raise_edge(edges, members, place, levels) {
            raised = true;
        }
    }
    raised
}

/// Raises levels for the edges from each node in this order. After an order in which a depth-first search leaves the
/// nodes no level is too low.
fn raise_in_order(graph: &Graph, order: &[usize], members: &[Member], levels: &mut Vec<u64>)
    requires graph { IsGraph graph.now }
    requires order { AreBelow graph.now.size order.now }
    requires sized { length levels.old.items ≡ graph.now.size }
    requires components { AreComponents graph.now.size graph.now.edges.items members.now }
    requires rising { AreRising graph.now.size graph.now.edges.items members.now levels.old.items }
    ensures length { length levels.new.items ≡ length levels.old.items }
    ensures rising { AreRising graph.now.size graph.now.edges.items members.now levels.new.items }
{
    for node in order {
        let mut at = graph.first[*node];
        while at > 0 {
            raise_edge(&graph.edges, members, at - 1, levels);
            at = graph.link[at - 1];
        }
    }
}

/// The levels of components, each at its root: 0 where it depends on no other, else one more than the greatest
/// level on which it depends. They are raised in the order first, which need not be any particular one.
pub fn find_levels(
    alloc: Global,
    graph: &Graph,
    order: &[usize],
    members: &[Member],
) -> Result<Vec<u64>, Memory>
    requires graph { IsGraph graph.now }
    requires order { AreBelow graph.now.size order.now }
    requires components { AreComponents graph.now.size graph.now.edges.items members.now }
    ensures { IfOk result (λ levels. AreLevels graph.now.size graph.now.edges.items members.now levels.items) }
{
    let mut levels = vec![in alloc; 0u64; graph.size]?;
    raise_in_order(graph, order, members, &mut levels);
    while raise(&graph.edges, members, &mut levels) {}
    Ok(levels)
}

/// The components, each at its root, in which some edge does not change the parity as it should.
pub fn find_odd(alloc: Global, edges: &[Edge], members: &[Member]) -> Result<Vec<bool>, Memory>
    requires ends { EndsBelow (length members.now) edges.now }
    requires components { AreComponents (length members.now) edges.now members.now }
    ensures { IfOk result (λ odd. AreOdd (length members.now) edges.now members.now odd.items) }
{
    let mut odd = vec![in alloc; false; members.len()]?;
    for edge in edges {
        let from = members[edge.from];
        let to = members[edge.to];
        let walked = differ(from.parity, edge.negated);
        if from.root == to.root && differ(to.parity, walked) {
            odd[from.root] = true;
        }
    }
    Ok(odd)
}
