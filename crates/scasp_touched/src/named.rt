//! What the lines of a certificate name.
ghost use Rattle.std.specs.Prelude.{◌≡◌, ◌+◌, ◌*◌, ◌<◌, ◌≤◌, ◌++◌, ◌∷◌, [], IfOk, OnOk, map, reverse};
ghost use Rattle.std.specs.List.{flat_map};
ghost use Rattle.scasp_cert.specs.Certificate.{certificate_of, checks_of};
ghost use Rattle.scasp_cert.specs.Lines.{lines_at, lines_below, lines_in, lines_of};
ghost use Rattle.scasp_cert.specs.Trees.{covering, listed};
ghost use Rattle.scasp_cert.specs.View.{branch_of, cover_of, tree_of};
ghost use Rattle.scasp_syntax.specs.Programs.{pred_of};
ghost use Rattle.scasp_touched.specs.Inside.{with_named};
ghost use Rattle.scasp_touched.specs.Named as spec;
ghost use Rattle.scasp_touched.specs.Once.{IsNamed};
ghost use Rattle.scasp_touched.specs.Unseen.{part_clauses, part_preds, part_work, unseen_clauses, unseen_preds, work};

use crate::numbers::Numbers;
use scasp_cert::{Case, Cert, Checks, Cover, Node};
use scasp_graph::Numbering;
use scasp_list::Memory;
use scasp_syntax::Atom;
use std::alloc::Global;

/// What the lines of a certificate name, each once.
#[derive(Drop)]
pub struct Named {
    /// The clauses of positive literals, of rules under negated ones, and of checks.
    pub(crate) clauses: Numbers,
    /// The predicates of positive and negated literals.
    pub(crate) preds: Numbering,
}

/// A part of a certificate that is still to be seen.
#[derive(Clone, Copy)]
enum Part<'a> {
    Nodes(&'a [Node]),
    Covers(&'a [Cover]),
    Case(&'a Case),
}

impl Named {
    /// What the lines of the certificate name. It takes memory for the parts that are still to be seen, and no machine stack.
    ///
    /// # Errors
    ///
    /// Want of memory.
    pub fn of(alloc: Global, cert: &Cert) -> Result<Named, Memory>
        ensures { IfOk result (λ named. IsNamed named (certificate_of cert.now)) }
    {
        let mut named = Named {
            clauses: Numbers::new(alloc),
            preds: Numbering::new(alloc),
        };
        name_all(alloc, Part::Nodes(cert.trees.as_slice()), &mut named)?;
        name_checks(alloc, &cert.checks, &mut named)?;
        Ok(named)
    }

    /// Puts in a clause.
    fn put_clause(&mut self, clause: u64) -> Result<(), Memory>
        ensures { OnOk result (self.new ≡ with_named self.old (clause ∷ []) []) }
    {
        self.clauses.insert(clause)
    }

    /// Puts in the predicate of an atom.
    fn put_atom(&mut self, atom: &Atom) -> Result<(), Memory>
        ensures { OnOk result (self.new ≡ with_named self.old [] (pred_of atom.now ∷ [])) }
    {
        self.preds.insert(&atom.pred())
    }
}

/// Puts in what the lines of checks name.
fn name_checks(alloc: Global, checks: &Checks, named: &mut Named) -> Result<(), Memory>
    ensures { OnOk result (named.new ≡ with_named named.old (flat_map spec.clauses_under (checks_of checks.now)) (flat_map spec.preds_under (checks_of checks.now))) }
{
    for check in checks.as_slice() {
        named.put_clause(check.clause)?;
        name_all(alloc, Part::Case(&check.case), named)?;
    }
    Ok(())
}

/// Puts in what the lines of the part name.
fn name_all(alloc: Global, part: Part<'_>, named: &mut Named) -> Result<(), Memory>
    ensures { OnOk result (named.new ≡ with_named named.old (part_clauses part.entry) (part_preds part.entry)) }
{
    let mut unseen = Vec::new(alloc);
    put_off(&mut unseen, part)?;
    while let Some(first) = unseen.pop() {
        name_part(first, &mut unseen, named)?;
    }
    Ok(())
}

/// Puts a part off; the last one is the next to be seen.
fn put_off<'a>(unseen: &mut Vec<Part<'a>>, part: Part<'a>) -> Result<(), Memory>
    ensures { OnOk result (reverse unseen.new.items ≡ part.entry ∷ reverse unseen.old.items) }
{
    unseen.push(part)?;
    Ok(())
}

/// Puts in what the first line of the part names, and puts the other lines off.
fn name_part<'a>(
    part: Part<'a>,
    unseen: &mut Vec<Part<'a>>,
    named: &mut Named,
) -> Result<(), Memory>
    ensures named { OnOk result (with_named named.new (unseen_clauses (reverse unseen.new.items)) (unseen_preds (reverse unseen.new.items)) ≡ with_named named.old (part_clauses part.entry ++ unseen_clauses (reverse unseen.old.items)) (part_preds part.entry ++ unseen_preds (reverse unseen.old.items))) }
    ensures work { OnOk result (work (reverse unseen.new.items) < work (reverse unseen.old.items) + part_work part.entry) }
{
    match part {
        Part::Nodes(nodes) => name_nodes(nodes, unseen, named),
        Part::Covers(covers) => name_covers(covers, unseen, named),
        Part::Case(case) => put_off_case(case, unseen),
    }
}

fn name_nodes<'a>(
    nodes: &'a [Node],
    unseen: &mut Vec<Part<'a>>,
    named: &mut Named,
) -> Result<(), Memory>
    ensures named { OnOk result (with_named named.new (unseen_clauses (reverse unseen.new.items)) (unseen_preds (reverse unseen.new.items)) ≡ with_named named.old (spec.clauses_below (listed (map tree_of nodes.now)) ++ unseen_clauses (reverse unseen.old.items)) (spec.preds_below (listed (map tree_of nodes.now)) ++ unseen_preds (reverse unseen.old.items))) }
    ensures work { OnOk result (work (reverse unseen.new.items) ≤ work (reverse unseen.old.items) + 3 * lines_below (listed (map tree_of nodes.now))) }
{
    let Some((first, others)) = nodes.split_first() else {
        return Ok(());
    };
    put_off(unseen, Part::Nodes(others))?;
    name_node(first, unseen, named)
}

#[tactic(auto, using(crate::proofs::NamedLemmas::named_twice))]
fn name_node<'a>(
    node: &'a Node,
    unseen: &mut Vec<Part<'a>>,
    named: &mut Named,
) -> Result<(), Memory>
    ensures named { OnOk result (with_named named.new (unseen_clauses (reverse unseen.new.items)) (unseen_preds (reverse unseen.new.items)) ≡ with_named named.old (spec.clauses_of (tree_of node.now) ++ unseen_clauses (reverse unseen.old.items)) (spec.preds_of (tree_of node.now) ++ unseen_preds (reverse unseen.old.items))) }
    ensures work { OnOk result (work (reverse unseen.new.items) + 2 ≤ work (reverse unseen.old.items) + 3 * lines_of (tree_of node.now)) }
{
    match node {
        Node::Pos {
            atom,
            rule,
            children,
            ..
        } => {
            named.put_clause(*rule)?;
            named.put_atom(atom)?;
            put_off(unseen, Part::Nodes(children.as_slice()))?;
            Ok(())
        }
        Node::Neg { atom, covers } => {
            named.put_atom(atom)?;
            put_off(unseen, Part::Covers(covers.as_slice()))?;
            Ok(())
        }
        Node::Loop { .. } | Node::Seen { .. } | Node::Test { .. } => Ok(()),
    }
}

#[tactic(auto, using(crate::proofs::NamedLemmas::named_twice))]
fn name_covers<'a>(
    covers: &'a [Cover],
    unseen: &mut Vec<Part<'a>>,
    named: &mut Named,
) -> Result<(), Memory>
    ensures named { OnOk result (with_named named.new (unseen_clauses (reverse unseen.new.items)) (unseen_preds (reverse unseen.new.items)) ≡ with_named named.old (spec.clauses_in (covering (map cover_of covers.now)) ++ unseen_clauses (reverse unseen.old.items)) (spec.preds_in (covering (map cover_of covers.now)) ++ unseen_preds (reverse unseen.old.items))) }
    ensures work { OnOk result (work (reverse unseen.new.items) ≤ work (reverse unseen.old.items) + 3 * lines_in (covering (map cover_of covers.now))) }
{
    let Some((first, others)) = covers.split_first() else {
        return Ok(());
    };
    named.put_clause(first.rule)?;
    put_off(unseen, Part::Covers(others))?;
    put_off(unseen, Part::Case(&first.case))?;
    Ok(())
}

/// Puts what stands below the line of a case off.
fn put_off_case<'a>(case: &'a Case, unseen: &mut Vec<Part<'a>>) -> Result<(), Memory>
    ensures clauses { OnOk result (unseen_clauses (reverse unseen.new.items) ≡ spec.clauses_at (branch_of case.now) ++ unseen_clauses (reverse unseen.old.items)) }
    ensures preds { OnOk result (unseen_preds (reverse unseen.new.items) ≡ spec.preds_at (branch_of case.now) ++ unseen_preds (reverse unseen.old.items)) }
    ensures work { OnOk result (work (reverse unseen.new.items) < work (reverse unseen.old.items) + 3 * lines_at (branch_of case.now)) }
{
    match case {
        Case::Split { first, second, .. } => {
            put_off(unseen, Part::Case(second))?;
            put_off(unseen, Part::Case(first))?;
            Ok(())
        }
        Case::Void { .. } => Ok(()),
        Case::Leaf { children, .. } | Case::Head { children } => {
            put_off(unseen, Part::Nodes(children.as_slice()))?;
            Ok(())
        }
    }
}
