//! The rules of a program by their predicates.
ghost use Rattle.std.specs.Prelude.{◌≡◌, ℕ, false, ◌∷◌, List, IfOk, OnOk, MatchOption, if◌then◌else◌};
ghost use Rattle.scasp_checker_rules.specs.LineFaults.{same_numbers};
ghost use Rattle.scasp_cert.specs.Trees.{covering};
ghost use Rattle.scasp_cert.specs.View.{cover_of, covers_of};
ghost use Rattle.scasp_lines.specs.Below.{rule_numbers};
ghost use Rattle.scasp_lines_places.specs.Places.Chains.{chained};
ghost use Rattle.scasp_syntax.specs.Programs.{is_rule_of, pred_of};
ghost use Rattle.scasp_syntax.specs.Same.{same_pred};
ghost use Rattle.scasp_syntax.specs.declared.atom.Pred.{Pred as ThisPred};
ghost use Rattle.scasp_checker.specs.Walk.Rules.{HasRules, named, rules_at};

use scasp_cert::{Cover, Covers};
use scasp_lines_places::Chain;
use scasp_list::Memory;
use scasp_syntax::{Atom, Clause, Pred, Program};
use std::alloc::Global;
use std::collections::HashMap;

/// The numbers of rules by their predicates, in order.
pub(crate) type Rules = HashMap<Pred, Chain<u64>>;

/// Those of this predicate.
fn rules_with(rules: &Rules, pred: Pred) -> Result<Chain<u64>, Memory>
    ensures { IfOk result (λ made. chained made ≡ rules_at rules.now pred) }
{
    match rules.get(&pred) {
        Some(chain) => chain.share(),
        None => Ok(Chain::new()),
    }
}

/// Puts the number before those of the atom's predicate.
fn put_before(alloc: Global, rules: &mut Rules, head: &Atom, number: u64) -> Result<(), Memory>
    ensures { OnOk result ((p : ThisPred) → rules_at rules.new p ≡ (if same_pred p (pred_of head.now) then number ∷ rules_at rules.old p else rules_at rules.old p)) }
{
    let chain = rules_with(rules, head.pred())?;
    let longer = chain.with(alloc, number)?;
    rules.insert(head.pred(), longer)?;
    Ok(())
}

/// Puts the clause's number before those of the predicate that it is a rule of, if it is one.
fn put_clause(alloc: Global, rules: &mut Rules, clause: &Clause, number: u64) -> Result<(), Memory>
    ensures { OnOk result ((p : ThisPred) → rules_at rules.new p ≡ (if is_rule_of p clause.now then number ∷ rules_at rules.old p else rules_at rules.old p)) }
{
    match &clause.head {
        Some(head) => put_before(alloc, rules, head, number),
        None => Ok(()),
    }
}

/// The rules of the program by their predicates. It takes time linear in the clauses.
pub(crate) fn rules_of(alloc: Global, program: &Program) -> Result<Rules, Memory>
    ensures { IfOk result (λ made. HasRules made program.now.clauses) }
{
    let mut rules: Rules = HashMap::new(alloc);
    let clauses = program.clauses.as_slice();
    let mut left = clauses.len();
    while left > 0 {
        put_clause(alloc, &mut rules, &clauses[left - 1], left as u64)?;
        left -= 1;
    }
    Ok(rules)
}

/// The rules behind the first one, where that is the cover's.
fn behind_first<'a>(cover: &Cover, rules: &'a Chain<u64>) -> Option<&'a Chain<u64>>
    ensures { (ks : List ℕ) → MatchOption result (same_numbers ((cover_of cover.now).0 ∷ ks) (chained rules.now) ≡ false) (λ others. same_numbers ((cover_of cover.now).0 ∷ ks) (chained rules.now) ≡ same_numbers ks (chained others.now)) }
{
    match rules.first() {
        Some((rule, others)) => {
            if cover.rule == *rule {
                Some(others)
            } else {
                None
            }
        }
        None => None,
    }
}

/// Whether the covers are for these rules, each once, in order.
fn are_for(covers: &Covers, rules: &Chain<u64>) -> bool
    ensures { result ≡ same_numbers (named (covers_of covers.now)) (chained rules.now) }
{
    let mut rest = rules;
    for cover in &covers.list {
        match behind_first(cover, rest) {
            Some(others) => rest = others,
            None => return false,
        }
    }
    rest.first().is_none()
}

/// Whether the covers are for the rules of the predicate, each once, in order. It takes time linear in the covers.
pub(crate) fn names_its_rules(rules: &Rules, pred: Pred, covers: &Covers) -> bool
    ensures { result ≡ same_numbers (rule_numbers (covering (covers_of covers.now))) (rules_at rules.now pred) }
{
    match rules.get(&pred) {
        Some(chain) => are_for(covers, chain),
        None => covers.len() == 0,
    }
}
