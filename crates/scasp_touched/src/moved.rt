//! The predicates whose rules have other numbers.
ghost use Rattle.std.specs.Prelude.{◌≡◌, ◌&&◌, ◌||◌, not, nat_eq, IfOk, OnOk, option_copied};
ghost use Rattle.std.specs.Cmp.Lexicographic.{pointwise};
ghost use Rattle.scasp_syntax.specs.Programs.{pred_of, rules_from};
ghost use Rattle.scasp_syntax.specs.Same.{same_pred};
ghost use Rattle.scasp_syntax.specs.declared.atom.Pred.{Pred as ThisPred};
ghost use Rattle.scasp_touched.specs.Inside.{among};
ghost use Rattle.scasp_touched.specs.Moved.{is_rule_at};

use scasp_graph::Numbering;
use scasp_list::Memory;
use scasp_syntax::{Atom, Clause, Clauses, Pred};
use std::alloc::Global;

/// Whether the clause is there and is a rule of the predicate.
fn is_rule_at(pred: Pred, clause: Option<&Clause>) -> bool
    ensures { result ≡ is_rule_at pred (option_copied clause.entry) }
{
    match clause {
        Some(clause) => clause.is_rule_of(pred),
        None => false,
    }
}

/// Puts in the predicate of a head unless the other clause is a rule of the same one.
fn put_unless(moved: &mut Numbering, head: &Atom, other: Option<&Clause>) -> Result<(), Memory>
    ensures { OnOk result ((p : ThisPred) → among moved.new p ≡ (among moved.old p || (same_pred p (pred_of head.now) && not (is_rule_at p (option_copied other.entry))))) }
{
    if is_rule_at(head.pred(), other) {
        return Ok(());
    }
    moved.insert(&head.pred())
}

/// Puts in the predicate that the clause is a rule of unless the other clause is a rule of the same one.
fn put_moved(
    moved: &mut Numbering,
    clause: Option<&Clause>,
    other: Option<&Clause>,
) -> Result<(), Memory>
    ensures { OnOk result ((p : ThisPred) → among moved.new p ≡ (among moved.old p || (is_rule_at p (option_copied clause.entry) && not (is_rule_at p (option_copied other.entry))))) }
{
    let Some(clause) = clause else {
        return Ok(());
    };
    match &clause.head {
        Some(head) => put_unless(moved, head, other),
        None => Ok(()),
    }
}

/// The predicates of which the rules in one list of clauses have other numbers than those in the other.
pub(crate) fn moved_between(
    alloc: Global,
    first: &Clauses,
    second: &Clauses,
) -> Result<Numbering, Memory>
    ensures { IfOk result (λ moved. (p : ThisPred) → among moved p ≡ not (pointwise nat_eq (rules_from 1 first.now p) (rules_from 1 second.now p))) }
{
    let mut moved = Numbering::new(alloc);
    for place in 0..first.len().max(second.len()) {
        put_moved(&mut moved, first.get(place), second.get(place))?;
        put_moved(&mut moved, second.get(place), first.get(place))?;
    }
    Ok(moved)
}
