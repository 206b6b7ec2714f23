//! Pairs of terms, as a state reads them.
ghost use Rattle.std.specs.Prelude.{◌≡◌, ◌∷◌, [], IfOk, length, true};
ghost use Rattle.scasp_search_rules.specs.Successors.Pairs.{from_first, in_front, pair, pairs, pairs_of};
ghost use Rattle.scasp_search_rules.specs.Successors.Variables.{meaning, next_variable};
ghost use Rattle.scasp_syntax.specs.Tm.{items};
ghost use Rattle.scasp_syntax.specs.Values.{under};
ghost use Rattle.scasp_syntax.specs.View.{tm_of};
ghost use Rattle.scasp_unify.specs.Negations.{new_parts};

use scasp_list::Memory;
use scasp_search_rules::{Pair, Pairs};
use scasp_search_state::Situation;
use scasp_search_terms::forms::numbered_parts;
use scasp_search_terms::pairs::{pairs, push_pairs};
use scasp_syntax::{Term, Terms, is_ground};
use std::alloc::Global;

/// So many new variables and the terms, as pairs.
pub(crate) fn new_pairs<M: Situation>(alloc: Global, at: &M, terms: &Terms) -> Result<Pairs, Memory>
    ensures { IfOk result (λ made. made ≡ pairs (new_parts (next_variable (M.now at.now)) (length (items terms.now))) terms.now) }
{
    let parts = numbered_parts(alloc, at.next_variable(), terms.len() as u64)?;
    pairs(alloc, &parts, terms)
}

/// The term as it reads. One without variables reads as it stands, and is not copied.
#[tactic(auto, using(crate::proofs::ReadLemmas::reads_as_itself))]
fn as_read<M: Situation>(alloc: Global, at: &M, term: Term) -> Result<Term, Memory>
    ensures { IfOk result (λ read. tm_of read ≡ under (meaning (M.now at.now)) (tm_of term)) }
{
    if is_ground(alloc, &term)? {
        return Ok(term);
    }
    at.read(alloc, &term)
}

/// Whether the two terms are a variable and a name with arguments: they come to themselves.
#[tactic(auto, using(crate::proofs::ReadLemmas::variable_and_name, crate::proofs::ReadLemmas::name_and_variable))]
fn are_variable_and_name(left: &Term, right: &Term) -> bool
    ensures { result ≡ true → pairs_of (tm_of left.now) (tm_of right.now) ≡ pair (tm_of left.now) (tm_of right.now) ∷ [] }
{
    match (left, right) {
        (Term::Var(_), Term::App(_, _)) => true,
        (Term::App(_, _), Term::Var(_)) => true,
        (Term::Var(_), Term::Var(_) | Term::Num(_))
        | (Term::Num(_), Term::Var(_) | Term::Num(_) | Term::App(_, _))
        | (Term::App(_, _), Term::Num(_) | Term::App(_, _)) => false,
    }
}

/// The pairs that two terms come to. A name with arguments that a variable is to be is not copied.
#[tactic(auto, using(crate::proofs::ReadLemmas::one_pair))]
fn pairs_of(alloc: Global, left: Term, right: Term) -> Result<Pairs, Memory>
    ensures { IfOk result (λ made. made ≡ pairs_of (tm_of left) (tm_of right)) }
{
    let mut found = Pairs::new(alloc);
    if are_variable_and_name(&left, &right) {
        found.push(Pair { left, right })?;
    } else {
        push_pairs(alloc, &left, &right, &mut found)?;
    }
    Ok(found)
}

/// The pairs that two terms come to, as they read.
pub(crate) fn pairs_read<M: Situation>(
    alloc: Global,
    at: &M,
    left: Term,
    right: Term,
) -> Result<Pairs, Memory>
    ensures { IfOk result (λ made. made ≡ pairs_of (under (meaning (M.now at.now)) (tm_of left)) (under (meaning (M.now at.now)) (tm_of right))) }
{
    let left = as_read(alloc, at, left)?;
    let right = as_read(alloc, at, right)?;
    pairs_of(alloc, left, right)
}

/// The pairs with one more behind them, or what this one comes to where there is none yet.
#[tactic(auto, using(crate::proofs::FrontLemmas::front_full))]
fn with_next<M: Situation>(alloc: Global, at: &M, found: Pairs, pair: Pair) -> Result<Pairs, Memory>
    ensures { IfOk result (λ more. more ≡ in_front found (pair ∷ []) (pairs_of (under (meaning (M.now at.now)) (tm_of pair.left)) (under (meaning (M.now at.now)) (tm_of pair.right)))) }
{
    let mut found = found;
    if found.is_empty() {
        let Pair { left, right } = pair;
        return pairs_read(alloc, at, left, right);
    }
    found.push(pair)?;
    Ok(found)
}

/// The pairs from the first on that comes to something, and this as what it comes to.
#[tactic(auto, using(crate::proofs::FrontLemmas::front_end, crate::proofs::FrontLemmas::front_step))]
pub(crate) fn from_first<M: Situation>(alloc: Global, at: &M, pairs: Pairs) -> Result<Pairs, Memory>
    ensures { IfOk result (λ left. left ≡ from_first (meaning (M.now at.now)) pairs) }
{
    let mut found = Pairs::new(alloc);
    for pair in pairs.into_vec() {
        found = with_next(alloc, at, found, pair)?;
    }
    Ok(found)
}
