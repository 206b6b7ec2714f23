//! The order in which a depth-first search leaves the nodes of a graph. What is proved of it is only that these are
//! nodes: it decides the time that other functions take, and none of their answers.
ghost use Rattle.std.specs.Prelude.{◌≡◌, ◌⊎◌, ◌<◌, ◌++◌, ◌∷◌, [], length, IfOk, OnOk};
ghost use Rattle.scasp_graph.specs.Inside.Graphs.{AreBelow, IsGraph};
ghost use Rattle.scasp_graph.specs.Inside.Orders.{AreNext};

use crate::graph::Graph;
use scasp_name::Memory;
use std::alloc::Global;

/// Puts the node at the end of the path unless it was seen.
fn enter(seen: &mut Vec<bool>, path: &mut Vec<usize>, node: usize) -> Result<(), Memory>
    requires { node < length seen.old.items }
    ensures seen { length seen.new.items ≡ length seen.old.items }
    ensures path { OnOk result ((path.new.items ≡ path.old.items) ⊎ (path.new.items ≡ path.old.items ++ node ∷ [])) }
{
    if !seen[node] {
        seen[node] = true;
        path.push(node)?;
    }
    Ok(())
}

/// Puts the nodes that are reached from the root, and not seen, at the end of the order as they are left. `next` has
/// for each node the number of the edge that is followed next, 0 for none.
fn leave(
    alloc: Global,
    graph: &Graph,
    root: usize,
    seen: &mut Vec<bool>,
    next: &mut Vec<usize>,
    order: &mut Vec<usize>,
) -> Result<(), Memory>
    requires graph { IsGraph graph.now }
    requires root { root < graph.now.size }
    requires seen { length seen.old.items ≡ graph.now.size }
    requires next { AreNext graph.now.size graph.now.edges.items next.old.items }
    requires order { AreBelow graph.now.size order.old.items }
    ensures seen { OnOk result (length seen.new.items ≡ graph.now.size) }
    ensures next { OnOk result (AreNext graph.now.size graph.now.edges.items next.new.items) }
    ensures order { OnOk result (AreBelow graph.now.size order.new.items) }
{
    let mut path = Vec::new(alloc);
    enter(seen, &mut path, root)?;
    while let Some(node) = path.pop() {
        let number = next[node];
        if number == 0 {
            order.push(node)?;
        } else {
            next[node] = graph.link[number - 1];
            path.push(node)?;
            enter(seen, &mut path, graph.edges[number - 1].to)?;
        }
    }
    Ok(())
}

/// The nodes as a depth-first search leaves them.
pub fn finishing_order(alloc: Global, graph: &Graph) -> Result<Vec<usize>, Memory>
    requires { IsGraph graph.now }
    ensures { IfOk result (λ order. AreBelow graph.now.size order.items) }
{
    let mut seen = vec![in alloc; false; graph.size]?;
    let mut next = Vec::from_slice(alloc, &graph.first)?;
    let mut order = Vec::new(alloc);
    for root in 0..graph.size {
        leave(alloc, graph, root, &mut seen, &mut next, &mut order)?;
    }
    Ok(order)
}
