//! Certificates without what shows them.
ghost use Rattle.std.specs.Prelude.{◌≡◌, IfOk, OnOk, map};
ghost use Rattle.scasp_cert.specs.Certificate.{certificate_of, checks_of};
ghost use Rattle.scasp_cert.specs.Skeleton.{bare, bare_entry, skeleton};
ghost use Rattle.scasp_cert.specs.View.{trees_of};
ghost use Rattle.scasp_cert.specs.Walk.{walk};
ghost use Rattle.scasp_cert.specs.WalkView.{line_of};
ghost use Rattle.scasp_search_rules.specs.Successors.Trees.{no_lines};
ghost use Rattle.scasp_search_trees.specs.Stacked.{built_of};
ghost use Rattle.scasp_skeleton.specs.Bare.{onto, put};

use crate::copies::{put_branch, put_tree};
use scasp_cert::{Cert, Checks, Clashes, Line, Nodes, Walk};
use scasp_list::Memory;
use scasp_search_trees::{Stacks, put_check, put_rule, trees_and_checks};
use scasp_syntax::{DeepCopy, Hint, copy_terms};
use std::alloc::Global;

/// The lines of the certificate, in order.
#[tactic(auto, using(crate::proofs::LineLemmas::one_line, crate::proofs::LineLemmas::no_line))]
fn lines_of<'a>(alloc: Global, cert: &'a Cert) -> Result<Vec<Line<'a>>, Memory>
    ensures { IfOk result (λ made. map line_of made.items ≡ walk (certificate_of cert.now)) }
{
    let mut left = Walk::of(alloc, cert)?;
    let mut made = Vec::new(alloc);
    'lines: while let Some(line) = left.next()? {
        made.push(line)?;
    }
    Ok(made)
}

/// Puts a copy of what stands on the line over what stands below it, with the hint `Terms` if there is one.
fn put(alloc: Global, line: Line<'_>, stacks: &mut Stacks) -> Result<(), Memory>
    ensures { OnOk result (built_of stacks.new ≡ put (line_of line.entry) (built_of stacks.old)) }
{
    match line {
        Line::Node(node) => put_tree(alloc, node, Hint::Terms, stacks),
        Line::Rule(cover) => put_rule(cover.rule, stacks),
        Line::Case(case) => put_branch(alloc, case, Hint::Terms, stacks),
        Line::Check(check) => put_check(check.clause, stacks),
    }
}

/// What the lines make. They are put from the last one back.
#[tactic(auto, using(crate::proofs::LineLemmas::onto_last))]
fn made_of(alloc: Global, lines: Vec<Line<'_>>) -> Result<Stacks, Memory>
    ensures { IfOk result (λ made. built_of made ≡ onto (map line_of lines.entry.items) no_lines) }
{
    let mut stacks = Stacks::new(alloc);
    let mut left = lines;
    while let Some(line) = left.pop() {
        put(alloc, line, &mut stacks)?;
    }
    Ok(stacks)
}

/// The trees and the checks of the certificate, each hint `Terms`.
fn bare_parts(alloc: Global, cert: &Cert) -> Result<(Nodes, Checks), Memory>
    ensures trees { IfOk result (λ made. trees_of made.0 ≡ map bare (trees_of cert.now.trees)) }
    ensures checks { IfOk result (λ made. checks_of made.1 ≡ map bare_entry (checks_of cert.now.checks)) }
{
    let lines = lines_of(alloc, cert)?;
    let stacks = made_of(alloc, lines)?;
    let (trees, checks) = trees_and_checks(alloc, stacks)?;
    Ok((trees, checks))
}

/// A copy of the certificate in which each hint is `Terms` and no clash line is left. What is still to be gone over and what is
/// made so far stand on lists, so no call is as deep as a tree.
pub fn skeleton(alloc: Global, cert: &Cert) -> Result<Cert, Memory>
    ensures { IfOk result (λ made. certificate_of made ≡ skeleton (certificate_of cert.now)) }
{
    let (trees, checks) = bare_parts(alloc, cert)?;
    Ok(Cert {
        query: cert.query,
        terms: copy_terms(alloc, &cert.terms)?,
        given: cert.given.copy(alloc)?,
        sample: copy_terms(alloc, &cert.sample)?,
        trees,
        checks,
        clashes: Clashes::new(alloc),
        map: cert.map.copy(alloc)?,
    })
}
