//! Whether a certificate is flat.

ghost use Rattle.std.specs.Prelude.{◌≡◌, IfOk};
ghost use Rattle.scasp_cert.specs.Certificate.{certificate_of};
ghost use Rattle.scasp_cert.specs.Flat.{are_flat, is_flat, is_flat_term, listed_by_tree, listed_on};
ghost use Rattle.scasp_cert.specs.View.{tree_of};
ghost use Rattle.scasp_cert.specs.WalkView.{line_of};
ghost use Rattle.scasp_syntax.specs.Tm.{items};
ghost use Rattle.scasp_syntax.specs.View.{tm_of};
ghost use Rattle.scasp_syntax.specs.WellFormed.{are_below};

use crate::certificate::Cert;
use crate::tree::Node;
use crate::walk::{Line, Walk};
use scasp_name::Memory;
use scasp_syntax::{Term, Terms, Walk as TermWalk};
use std::alloc::Global;

/// Whether each term that a line lists for a variable of its rule has no universal variable, or is one by itself.
#[tactic(auto, using(crate::proofs::FlatLemmas::flat_append, crate::proofs::FlatLemmas::all_met))]
pub fn flat(alloc: Global, cert: &Cert) -> Result<bool, Memory>
    ensures { IfOk result (λ found. found ≡ is_flat (certificate_of cert.now)) }
{
    let free = cert.sample.len();
    let mut walk = Walk::of(alloc, cert)?;
    while let Some(line) = walk.next()? {
        if !line_is_flat(alloc, &line, free)? {
            return Ok(false);
        }
    }
    Ok(true)
}

fn line_is_flat(alloc: Global, line: &Line<'_>, free: usize) -> Result<bool, Memory>
    ensures { IfOk result (λ found. found ≡ are_flat free (listed_on (line_of line.now))) }
{
    match line {
        Line::Node(node) => node_is_flat(alloc, node, free),
        Line::Rule(_) | Line::Case(_) | Line::Check(_) => Ok(true),
    }
}

fn node_is_flat(alloc: Global, node: &Node, free: usize) -> Result<bool, Memory>
    ensures { IfOk result (λ found. found ≡ are_flat free (listed_by_tree (tree_of node.now))) }
{
    match node {
        Node::Pos { terms, .. } => terms_are_flat(alloc, terms, free),
        Node::Neg { .. } | Node::Loop { .. } | Node::Seen { .. } | Node::Test { .. } => Ok(true),
    }
}

fn terms_are_flat(alloc: Global, terms: &Terms, free: usize) -> Result<bool, Memory>
    ensures { IfOk result (λ found. found ≡ are_flat free (items terms.now)) }
{
    for term in terms.as_slice() {
        if !is_flat_term(alloc, term, free)? {
            return Ok(false);
        }
    }
    Ok(true)
}

fn is_flat_term(alloc: Global, term: &Term, free: usize) -> Result<bool, Memory>
    ensures { IfOk result (λ found. found ≡ is_flat_term free (tm_of term.now)) }
{
    match term {
        Term::Var(_) | Term::Num(_) => Ok(true),
        Term::App(_, args) => are_below(alloc, args, free),
    }
}

/// Whether every variable of the terms is below the number. It takes memory for the terms that are still to be seen, and no
/// machine stack.
#[tactic(auto, using(crate::proofs::BelowLemmas::high_here, crate::proofs::BelowLemmas::low_passed, crate::proofs::BelowLemmas::number_passed, crate::proofs::BelowLemmas::args_next, crate::proofs::BelowLemmas::no_args, crate::proofs::BelowLemmas::none_high, crate::proofs::BelowLemmas::less_left, crate::proofs::BelowLemmas::less_entered))]
fn are_below(alloc: Global, terms: &Terms, free: usize) -> Result<bool, Memory>
    ensures { IfOk result (λ found. found ≡ are_below free terms.now) }
{
    let mut left = TermWalk::over(alloc, terms.as_slice());
    'terms: while let Some(term) = left.next() {
        match term {
            Term::Var(x) => {
                if *x >= free as u64 {
                    return Ok(false);
                }
            }
            Term::Num(_) => {}
            Term::App(_, args) => {
                if args.len() == 0 {
                    continue;
                }
                left.enter(args)?;
            }
        }
    }
    Ok(true)
}
