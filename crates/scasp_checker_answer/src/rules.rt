//! The rules that lines name.
ghost use Rattle.std.specs.Prelude.{◌≡◌, nat_eq, IfOk};
ghost use Rattle.scasp_cert.specs.Trees.{listed};
ghost use Rattle.scasp_cert.specs.View.{trees_of};
ghost use Rattle.scasp_lines.specs.Below.{count};
ghost use Rattle.scasp_checker_rules.specs.LineFaults.{is_instance};

use scasp_cert::Nodes;
use scasp_list::Memory;
use scasp_syntax::{Atom, Clause, Terms, instance_atom, same_atom};
use std::alloc::Global;

/// Whether the atom is the head of the clause under the terms, one for each of its variables.
pub fn is_instance(
    alloc: Global,
    terms: &Terms,
    atom: &Atom,
    clause: &Clause,
) -> Result<bool, Memory>
    ensures { IfOk result (λ is. is ≡ is_instance terms.now atom.now clause.now) }
{
    if terms.len() as u64 != clause.vars {
        return Ok(false);
    }
    match &clause.head {
        Some(head) => {
            let head = instance_atom(alloc, head, terms)?;
            same_atom(alloc, &head, atom)
        }
        None => Ok(false),
    }
}

/// Whether there are so many nodes.
pub fn has_count_of(nodes: &Nodes, wanted: u64) -> bool
    ensures { result ≡ nat_eq (count (listed (trees_of nodes.now))) wanted }
{
    nodes.len() as u64 == wanted
}
