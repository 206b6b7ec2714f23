//! Parts of certificates that several tests make.
use scasp_cert::{Case, Cert, Checks, Clashes, Cover, Covers, Node, Nodes};
use scasp_name::Memory;
use scasp_syntax::{Cons, PredMaps, Term, Terms};
use std::alloc::Global;

/// The list of one line.
pub(crate) fn nodes(alloc: Global, node: Node) -> Result<Nodes, Memory> {
    let mut list = Nodes::new(alloc);
    list.push(node)?;
    Ok(list)
}

/// The list of one rule's case.
pub(crate) fn covers(alloc: Global, rule: u64, case: Case) -> Result<Covers, Memory> {
    let mut list = Covers::new(alloc);
    list.push(Cover { rule, case })?;
    Ok(list)
}

/// The case on the heap.
pub(crate) fn boxed(alloc: Global, case: Case) -> Result<Box<Case>, Memory> {
    Ok(Box::new(alloc, case)?)
}

/// The list of one term.
pub(crate) fn terms(alloc: Global, term: Term) -> Result<Terms, Memory> {
    let mut list = Terms::new(alloc);
    list.push(term)?;
    Ok(list)
}

/// The certificate of these trees for the first query, without terms, constraints, checks, clashes and map.
pub(crate) fn certificate(alloc: Global, trees: Nodes) -> Cert {
    Cert {
        query: 1,
        terms: Terms::new(alloc),
        given: Cons::new(alloc),
        sample: Terms::new(alloc),
        trees,
        checks: Checks::new(alloc),
        clashes: Clashes::new(alloc),
        map: PredMaps::new(alloc),
    }
}
