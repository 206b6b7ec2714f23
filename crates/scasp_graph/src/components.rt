//! Strong components of a graph, each found by a search backwards and a search forwards from one of its nodes
//! (Sharir 1981), among the nodes whose component is not known yet.
ghost use Rattle.std.specs.Prelude.{◌≡◌, ◌<◌, ◌≤◌, ℕ, List, true, false, length, map, slice_index_or, MatchOption, IfOk, OnOk};
ghost use Rattle.std.specs.List.{Contains};
ghost use Rattle.scasp_graph.specs.Inside.Components.{turned, AreComponents};
ghost use Rattle.scasp_graph.specs.Inside.Graphs.{AreBelow, AreClear, IsGraph, is_marked};
ghost use Rattle.scasp_graph.specs.Inside.Partitions.{ArePlaced, IsPartition, IsSource};
ghost use Rattle.scasp_graph.specs.declared.graph.Edge.{Edge as ThisEdge};

use crate::graph::{Graph, clear, differ, parity_of};
use scasp_name::Memory;
use std::alloc::Global;

/// A node's place in its component: the component's first node, the parity of a walk from there, and the
/// component's rank, which is above those of the other components to which an edge leads.
#[derive(Clone, Copy, Debug)]
pub struct Member {
    pub root: usize,
    pub parity: bool,
    pub rank: usize,
}

/// The components that are known so far, and marks for searches, none of which is set between them.
///
/// `free` marks the nodes whose component is not known yet; `left` is their number or more, and below each rank.
#[derive(Drop)]
pub struct Partition {
    members: Vec<Member>,
    free: Vec<Option<bool>>,
    left: usize,
    from: Vec<Option<bool>>,
    to: Vec<Option<bool>>,
}

impl Partition {
    /// No component.
    fn new(alloc: Global, size: usize) -> Result<Partition, Memory>
        ensures { IfOk result (λ p. (edges : List ThisEdge) → IsPartition size edges p) }
    {
        let unknown = Member {
            root: 0,
            parity: false,
            rank: 0,
        };
        Ok(Partition {
            members: vec![in alloc; unknown; size]?,
            free: vec![in alloc; Some(false); size]?,
            left: size,
            from: vec![in alloc; None; size]?,
            to: vec![in alloc; None; size]?,
        })
    }
}

/// The first of the nodes that is not marked.
fn first_unmarked(nodes: &[usize], marks: &[Option<bool>]) -> Option<usize>
    requires { AreBelow (length marks.now) nodes.now }
    ensures { MatchOption result ((k : ℕ) → k < length nodes.now → is_marked marks.now (slice_index_or nodes.now k 0) ≡ true) (λ v. Contains nodes.now v × (is_marked marks.now v ≡ false)) }
{
    for node in nodes {
        if marks[*node].is_none() {
            return Some(*node);
        }
    }
    None
}

/// The least of the nodes.
fn least(nodes: &[usize]) -> usize
    requires { 0 < length nodes.now }
    ensures listed { Contains nodes.now result }
    ensures least { (k : ℕ) → k < length nodes.now → result ≤ slice_index_or nodes.now k 0 }
{
    let mut least = nodes[0];
    for node in nodes {
        if *node < least {
            least = *node;
        }
    }
    least
}

/// Marks the nodes of a component to which no other free node leads, and from which walks lead to the start: in
/// `from` by walks to one of them, in `to` by walks from it. The nodes.
fn find_source(
    alloc: Global,
    ahead: &Graph,
    behind: &Graph,
    start: usize,
    free: &[Option<bool>],
    from: &mut Vec<Option<bool>>,
    to: &mut Vec<Option<bool>>,
) -> Result<Vec<usize>, Memory>
    requires ahead { IsGraph ahead.now }
    requires behind { IsGraph behind.now }
    requires sizes { behind.now.size ≡ ahead.now.size }
    requires turned { behind.now.edges.items ≡ map turned ahead.now.edges.items }
    requires start { start < ahead.now.size }
    requires sized { length free.now ≡ ahead.now.size }
    requires free { is_marked free.now start ≡ true }
    requires from { AreClear ahead.now.size from.old.items }
    requires to { AreClear ahead.now.size to.old.items }
    ensures { IfOk result (λ nodes. IsSource ahead.now.size ahead.now.edges.items free.now from.new.items to.new.items nodes.items) }
{
    let mut leading = behind.search(alloc, start, free, from)?;
    let mut nodes = ahead.search(alloc, start, from, to)?;
    while let Some(next) = first_unmarked(&leading, to) {
        clear(from, &leading);
        clear(to, &nodes);
        leading = behind.search(alloc, next, free, from)?;
        nodes = ahead.search(alloc, next, from, to)?;
    }
    Ok(nodes)
}

/// Makes the nodes a component of this rank, whose root is the least of them.
fn place(
    members: &mut Vec<Member>,
    free: &mut Vec<Option<bool>>,
    rank: usize,
    nodes: &[usize],
    from: &[Option<bool>],
    to: &[Option<bool>],
)
    requires some { 0 < length nodes.now }
    requires within { AreBelow (length members.old.items) nodes.now }
    requires free { length free.old.items ≡ length members.old.items }
    requires from { length from.now ≡ length members.old.items }
    requires to { length to.now ≡ length members.old.items }
    ensures { ArePlaced members.old.items free.old.items rank nodes.now from.now to.now members.new.items free.new.items }
{
    let root = least(nodes);
    let shift = parity_of(from, root);
    for node in nodes {
        let parity = *node != root && differ(shift, parity_of(to, *node));
        members[*node] = Member { root, parity, rank };
        free[*node] = None;
    }
}

/// Finds components until that of the start is known.
fn settle(
    alloc: Global,
    ahead: &Graph,
    behind: &Graph,
    start: usize,
    known: &mut Partition,
) -> Result<(), Memory>
    requires ahead { IsGraph ahead.now }
    requires behind { IsGraph behind.now }
    requires sizes { behind.now.size ≡ ahead.now.size }
    requires turned { behind.now.edges.items ≡ map turned ahead.now.edges.items }
    requires start { start < ahead.now.size }
    requires known { IsPartition ahead.now.size ahead.now.edges.items known.old }
    ensures known { OnOk result (IsPartition ahead.now.size ahead.now.edges.items known.new) }
    ensures found { OnOk result (is_marked known.new.free.items start ≡ false) }
    ensures stays { OnOk result ((v : ℕ) → is_marked known.old.free.items v ≡ false → is_marked known.new.free.items v ≡ false) }
{
    while known.free[start].is_some() {
        let nodes = find_source(
            alloc,
            ahead,
            behind,
            start,
            &known.free,
            &mut known.from,
            &mut known.to,
        )?;
        place(
            &mut known.members,
            &mut known.free,
            known.left,
            &nodes,
            &known.from,
            &known.to,
        );
        known.left -= 1;
        clear(&mut known.from, &nodes);
        clear(&mut known.to, &nodes);
    }
    Ok(())
}

/// The components of a graph, given with all its edges turned round too. They are looked for from the last node of
/// the order on: with an order in which a depth-first search leaves the nodes, no search leaves its component.
pub fn find_components(
    alloc: Global,
    ahead: &Graph,
    behind: &Graph,
    order: &[usize],
) -> Result<Vec<Member>, Memory>
    requires ahead { IsGraph ahead.now }
    requires behind { IsGraph behind.now }
    requires sizes { behind.now.size ≡ ahead.now.size }
    requires turned { behind.now.edges.items ≡ map turned ahead.now.edges.items }
    requires order { AreBelow ahead.now.size order.now }
    ensures { IfOk result (λ members. AreComponents ahead.now.size ahead.now.edges.items members.items) }
{
    let mut known = Partition::new(alloc, ahead.size)?;
    for place in (0..order.len()).rev() {
        settle(alloc, ahead, behind, order[place], &mut known)?;
    }
    for start in 0..ahead.size {
        settle(alloc, ahead, behind, start, &mut known)?;
    }
    Ok(known.members)
}
