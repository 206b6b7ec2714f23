//! What stands on a line says at the instances of what opened around it.
ghost use Rattle.std.specs.Prelude.{◌≡◌, IfOk, OnOk, map, true, false};
ghost use Rattle.std.specs.List.{list_all};
ghost use Rattle.scasp_cert.specs.View.{tree_of};
ghost use Rattle.scasp_extend_instances.specs.View.{way_of, ways_of};
ghost use Rattle.scasp_extend_levels.specs.Sets.{with_atoms};
ghost use Rattle.scasp_extend_parts.specs.Causes.{Explains};
ghost use Rattle.scasp_extend_parts.specs.Inside.{node_says};
ghost use Rattle.scasp_extend_parts.specs.Obstacles.{unless_closed};
ghost use Rattle.scasp_lines.specs.Said.{are_in, atoms_of};
ghost use Rattle.scasp_syntax.specs.Instances.{atom_under};
ghost use Rattle.scasp_syntax.specs.Tm.{items};
ghost use Rattle.scasp_syntax.specs.Values.{under};
ghost use Rattle.scasp_syntax.specs.View.{tm_of};
ghost use Rattle.scasp_tables.specs.Tables.{is_member, with_atom};

use crate::errors::ExtendErr;
use crate::told::Told;
use scasp_cert::Node;
use scasp_extend_instances::Way;
use scasp_lines_places::{atom_under, under};
use scasp_list::Memory;
use scasp_syntax::{Atom, Term, Terms};
use scasp_tables::{AtomTable, Domain};
use std::alloc::Global;

/// Whether the term has its value in the domain.
fn is_in(alloc: Global, domain: &Domain, term: &Term, way: &Way) -> Result<bool, Memory>
    ensures { IfOk result (λ answer. answer ≡ is_member (items domain.now) (under (way_of way.now) (tm_of term.now))) }
{
    let value = under(alloc, term, way)?;
    match domain.find(alloc, &value)? {
        Some(_) => Ok(true),
        None => Ok(false),
    }
}

/// Whether each of the terms has its value in the domain.
fn are_in(alloc: Global, domain: &Domain, terms: &Terms, way: &Way) -> Result<bool, Memory>
    ensures { IfOk result (λ answer. answer ≡ are_in (items domain.now) (map (under (way_of way.now)) (items terms.now))) }
{
    for term in terms.as_slice() {
        if !is_in(alloc, domain, term, way)? {
            return Ok(false);
        }
    }
    Ok(true)
}

/// Whether each of the terms has its value in the domain at each of the instances.
fn are_closed(alloc: Global, domain: &Domain, ways: &[Way], terms: &Terms) -> Result<bool, Memory>
    ensures { IfOk result (λ answer. answer ≡ list_all (λ v. are_in (items domain.now) (map (under v) (items terms.now))) (ways_of ways.now)) }
{
    for way in ways {
        if !are_in(alloc, domain, terms, way)? {
            return Ok(false);
        }
    }
    Ok(true)
}

/// Puts the atom at the instance into the set.
fn put_at(alloc: Global, way: &Way, atom: &Atom, set: &mut AtomTable) -> Result<(), Memory>
    ensures { OnOk result (set.new ≡ with_atom set.old (atom_under (way_of way.now) atom.now)) }
{
    let here = atom_under(alloc, atom, way)?;
    set.put(alloc, &here)?;
    Ok(())
}

/// Puts the atom at each of the instances into the set.
fn put_all(alloc: Global, ways: &[Way], atom: &Atom, set: &mut AtomTable) -> Result<(), Memory>
    ensures { OnOk result (set.new ≡ with_atoms set.old (map (λ v. atom_under v atom.now) (ways_of ways.now))) }
{
    for way in ways {
        put_at(alloc, way, atom, set)?;
    }
    Ok(())
}

/// Adds what the node on this line says at the instances.
pub(crate) fn add_node(
    alloc: Global,
    domain: &Domain,
    ways: &[Way],
    at: u64,
    node: &Node,
    told: &mut Told,
) -> Result<(), ExtendErr>
    ensures causes { Explains result (unless_closed (items domain.now) at (node_says (tree_of node.now) (ways_of ways.now))) }
    ensures trues { OnOk result (told.new.trues ≡ with_atoms told.old.trues (atoms_of true (node_says (tree_of node.now) (ways_of ways.now)))) }
    ensures falses { OnOk result (told.new.falses ≡ with_atoms told.old.falses (atoms_of false (node_says (tree_of node.now) (ways_of ways.now)))) }
{
    match node {
        Node::Pos { atom, terms, .. } => {
            if !are_closed(alloc, domain, ways, terms)? {
                return Err(ExtendErr::NotClosed { at });
            }
            put_all(alloc, ways, atom, &mut told.trues)?;
            Ok(())
        }
        Node::Neg { atom, .. } => {
            put_all(alloc, ways, atom, &mut told.falses)?;
            Ok(())
        }
        Node::Loop { .. } => Ok(()),
        Node::Seen { .. } => Ok(()),
        Node::Test { .. } => Ok(()),
    }
}
