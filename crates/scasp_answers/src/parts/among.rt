//! The nodes, the rules and the cases among parts.
ghost use Rattle.std.specs.Prelude.{◌≡◌, ◌∷◌, ◌++◌, [], length, map, IfOk, OnOk};
ghost use Rattle.scasp_cert.specs.View.{trees_of, covers_of, branch_of};
ghost use Rattle.scasp_answers.specs.Blocks.Open as spec;
ghost use Rattle.scasp_answers.specs.Parts.View.{part_of, parts_in, listed_case};

use crate::parts::open_line::Part;
use scasp_cert::{Case, Covers, Nodes};
use scasp_list::Memory;
use std::alloc::Global;

/// Puts the part behind the nodes, if it is one.
fn put_node(part: Part, nodes: &mut Nodes) -> Result<(), Memory>
    ensures { OnOk result (trees_of nodes.new ≡ trees_of nodes.old ++ spec.trees_among (part_of part ∷ [])) }
{
    match part {
        Part::Node(node) => nodes.push(node),
        Part::Cover(cover) => {
            drop(cover);
            Ok(())
        }
        Part::Case(case) => {
            drop(case);
            Ok(())
        }
    }
}

/// The nodes among the parts.
#[tactic(auto, using(crate::proofs::PartsLemmas::PartLemmas::trees_more))]
pub fn nodes_among(alloc: Global, parts: Vec<Part>) -> Result<Nodes, Memory>
    ensures { IfOk result (λ nodes. trees_of nodes ≡ spec.trees_among (parts_in parts.items)) }
{
    let mut nodes = Nodes {
        list: Vec::with_capacity(alloc, parts.len())?,
    };
    for part in parts {
        put_node(part, &mut nodes)?;
    }
    Ok(nodes)
}

/// Puts the part behind the rules, if it is one.
fn put_cover(part: Part, covers: &mut Covers) -> Result<(), Memory>
    ensures { OnOk result (covers_of covers.new ≡ covers_of covers.old ++ spec.covers_among (part_of part ∷ [])) }
{
    match part {
        Part::Cover(cover) => covers.push(cover),
        Part::Node(node) => {
            drop(node);
            Ok(())
        }
        Part::Case(case) => {
            drop(case);
            Ok(())
        }
    }
}

/// The rules among the parts.
#[tactic(auto, using(crate::proofs::PartsLemmas::PartLemmas::covers_more))]
pub fn covers_among(alloc: Global, parts: Vec<Part>) -> Result<Covers, Memory>
    ensures { IfOk result (λ covers. covers_of covers ≡ spec.covers_among (parts_in parts.items)) }
{
    let mut covers = Covers {
        list: Vec::with_capacity(alloc, parts.len())?,
    };
    for part in parts {
        put_cover(part, &mut covers)?;
    }
    Ok(covers)
}

/// Puts the part behind the cases, if it is one.
fn put_case(part: Part, cases: &mut Vec<Case>) -> Result<(), Memory>
    ensures { OnOk result (map branch_of cases.new.items ≡ map branch_of cases.old.items ++ spec.cases_among (part_of part ∷ [])) }
{
    match part {
        Part::Case(case) => {
            cases.push(case)?;
            Ok(())
        }
        Part::Node(node) => {
            drop(node);
            Ok(())
        }
        Part::Cover(cover) => {
            drop(cover);
            Ok(())
        }
    }
}

/// The cases among the parts.
#[tactic(auto, using(crate::proofs::PartsLemmas::PartLemmas::cases_more))]
pub fn cases_among(alloc: Global, parts: Vec<Part>) -> Result<Vec<Case>, Memory>
    ensures { IfOk result (λ cases. map branch_of cases.items ≡ spec.cases_among (parts_in parts.items)) }
{
    let mut cases = Vec::with_capacity(alloc, parts.len())?;
    for part in parts {
        put_case(part, &mut cases)?;
    }
    Ok(cases)
}

/// The case that the part is, if it is one.
fn into_case(part: Part) -> Option<Case>
    ensures { listed_case result ≡ spec.cases_among (part_of part ∷ []) }
{
    match part {
        Part::Case(case) => Some(case),
        Part::Node(node) => {
            drop(node);
            None
        }
        Part::Cover(cover) => {
            drop(cover);
            None
        }
    }
}

/// The case among the parts, of which there is one.
#[tactic(auto, using(crate::proofs::PartsLemmas::PartLemmas::one_part))]
pub fn case_among(parts: Vec<Part>) -> Option<Case>
    requires { length parts.items ≡ 1 }
    ensures { listed_case result ≡ spec.cases_among (parts_in parts.items) }
{
    let mut parts = parts;
    match parts.pop() {
        Some(part) => into_case(part),
        None => None,
    }
}
