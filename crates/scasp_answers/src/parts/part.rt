//! Open lines become parts of the lines around them.
ghost use Rattle.std.specs.Prelude.{◌≡◌, ◌∷◌, [], true, length, map, IfOk, OnOk};
ghost use Rattle.scasp_cert.specs.View.{branch_of, tree_of};
ghost use Rattle.scasp_syntax.specs.declared.con.Con.{Con};
ghost use Rattle.scasp_answers_terms.specs.Tokens.Lines as lines;
ghost use Rattle.scasp_answers_lines.specs.Forms.View.{line_of};
ghost use Rattle.scasp_answers.specs.Blocks.Open as spec;
ghost use Rattle.scasp_answers.specs.Parts.View.{part_of, parts_in, open_of, listed_part, sides};

use crate::parts::among::{case_among, cases_among, covers_among, nodes_among};
use crate::parts::open_line::{Open, Part};
use scasp_answers_lines::Line;
use scasp_cert::{Case, Cover, Node};
use scasp_list::Memory;
use scasp_syntax::{Atom, Con, Terms};
use std::alloc::Global;

/// The rule with its case, where there is one.
fn cover_part(rule: u64, parts: Vec<Part>) -> Option<Part>
    requires { length parts.items ≡ 1 }
    ensures { listed_part result ≡ map (spec.cover_part rule) (spec.cases_among (parts_in parts.items)) }
{
    match case_among(parts) {
        Some(case) => Some(Part::Cover(Cover { rule, case })),
        None => None,
    }
}

/// The cases, where there are two.
#[tactic(auto, using(crate::proofs::PartsLemmas::PartLemmas::more_cases))]
fn both_of(cases: Vec<Case>) -> Option<(Case, Case)>
    ensures { (con : Con) → spec.split_part (lines.split_line con) (map branch_of cases.items) ≡ sides con result }
{
    let mut cases = cases;
    let second = cases.pop()?;
    let first = cases.pop()?;
    if cases.is_empty() {
        Some((first, second))
    } else {
        None
    }
}

/// Both sides of a split, where both are there.
fn split_part(alloc: Global, con: Con, parts: Vec<Part>) -> Result<Option<Part>, Memory>
    ensures { IfOk result (λ part. listed_part part ≡ spec.split_part (lines.split_line con) (spec.cases_among (parts_in parts.items))) }
{
    let cases = cases_among(alloc, parts)?;
    let Some((first, second)) = both_of(cases) else {
        return Ok(None);
    };
    let first = Box::new(alloc, first)?;
    let second = Box::new(alloc, second)?;
    Ok(Some(Part::Case(Case::Split { con, first, second })))
}

/// The node of an atom that a rule shows.
fn pos_part(
    alloc: Global,
    atom: Atom,
    rule: u64,
    terms: Terms,
    parts: Vec<Part>,
) -> Result<Option<Part>, Memory>
    ensures { IfOk result (λ part. listed_part part ≡ spec.parts_of (lines.pos_line atom rule terms) (parts_in parts.items)) }
{
    let children = nodes_among(alloc, parts)?;
    Ok(Some(Part::Node(Node::Pos {
        atom,
        rule,
        terms,
        children,
    })))
}

/// The node of a negated atom.
fn neg_part(alloc: Global, atom: Atom, parts: Vec<Part>) -> Result<Option<Part>, Memory>
    ensures { IfOk result (λ part. listed_part part ≡ spec.parts_of (lines.neg_line atom) (parts_in parts.items)) }
{
    let covers = covers_among(alloc, parts)?;
    Ok(Some(Part::Node(Node::Neg { atom, covers })))
}

/// The case that is left, up to this item.
fn leaf_part(alloc: Global, item: u64, parts: Vec<Part>) -> Result<Option<Part>, Memory>
    ensures { IfOk result (λ part. listed_part part ≡ spec.parts_of (lines.leaf_line item) (parts_in parts.items)) }
{
    let children = nodes_among(alloc, parts)?;
    Ok(Some(Part::Case(Case::Leaf { item, children })))
}

/// The case in which the head holds.
fn head_part(alloc: Global, parts: Vec<Part>) -> Result<Option<Part>, Memory>
    ensures { IfOk result (λ part. listed_part part ≡ spec.parts_of lines.head_line (parts_in parts.items)) }
{
    let children = nodes_among(alloc, parts)?;
    Ok(Some(Part::Case(Case::Head { children })))
}

/// The node, below which nothing stands.
fn node_part(node: Node, parts: Vec<Part>) -> Result<Option<Part>, Memory>
    ensures { IfOk result (λ part. listed_part part ≡ spec.node_part (tree_of node) ∷ []) }
{
    drop(parts);
    Ok(Some(Part::Node(node)))
}

/// The case, below which nothing stands.
fn case_part(case: Case, parts: Vec<Part>) -> Result<Option<Part>, Memory>
    ensures { IfOk result (λ part. listed_part part ≡ spec.case_part (branch_of case) ∷ []) }
{
    drop(parts);
    Ok(Some(Part::Case(case)))
}

impl Open {
    /// Puts the part behind those right below the line.
    pub fn put(&mut self, part: Part) -> Result<(), Memory>
        ensures { OnOk result (open_of self.new ≡ spec.with_parts (open_of self.old) (part_of part ∷ [])) }
    {
        self.parts.push(part)?;
        Ok(())
    }

    /// The part that the line is with the parts below it, if it is one.
    pub fn into_part(self, alloc: Global) -> Result<Option<Part>, Memory>
        requires { spec.is_whole (open_of self) ≡ true }
        ensures { IfOk result (λ part. listed_part part ≡ spec.parts_of (line_of self.line) (parts_in self.parts.items)) }
    {
        let Open { line, parts } = self;
        match line {
            Line::Pos(atom, rule, terms) => pos_part(alloc, atom, rule as u64, terms, parts),
            Line::Neg(atom) => neg_part(alloc, atom, parts),
            Line::Loop(lit, at) => node_part(Node::Loop { lit, at: at as u64 }, parts),
            Line::Seen(lit, at) => node_part(Node::Seen { lit, at: at as u64 }, parts),
            Line::Test(con, hint) => node_part(Node::Test { con, hint }, parts),
            Line::Rule(rule) => Ok(cover_part(rule as u64, parts)),
            Line::Split(con) => split_part(alloc, con, parts),
            Line::Void(hint) => case_part(Case::Void { hint }, parts),
            Line::Leaf(item) => leaf_part(alloc, item as u64, parts),
            Line::Head => head_part(alloc, parts),
            Line::Header(_)
            | Line::Ending(_, _)
            | Line::Rejected(_, _, _, _)
            | Line::Answer(_, _, _)
            | Line::Given(_)
            | Line::Sample(_)
            | Line::Tree
            | Line::Check(_)
            | Line::Clash(_)
            | Line::Map(_)
            | Line::End => {
                drop(line);
                drop(parts);
                Ok(None)
            }
        }
    }
}
