//! The rules of each predicate with their flat bodies, in order.
ghost use Rattle.std.specs.Prelude.{◌≡◌, length, map, IfOk, OnOk};
ghost use Rattle.scasp_syntax.specs.Programs.{predicates};
ghost use Rattle.scasp_dual.specs.Inside.Filling.{HasPlace, empty_plan, with_rule};
ghost use Rattle.scasp_dual.specs.Plans.{plans};

use crate::plans::{Plan, Plans, RulePlan};
use scasp_graph::{Numbering, number};
use scasp_name::Memory;
use scasp_syntax::{Clause, Pred, Program, Sequence, flat};
use std::alloc::Global;

/// A plan without rules for each predicate.
fn empty_plans(alloc: Global, preds: &[Pred]) -> Result<Vec<Plan>, Memory>
    ensures { IfOk result (λ plans. plans.items ≡ map empty_plan preds.now) }
{
    let mut plans = Vec::new(alloc);
    for pred in preds {
        let rules = Sequence::new(alloc);
        plans.push(Plan { pred: *pred, rules })?;
    }
    Ok(plans)
}

/// Puts a rule at the end of its predicate's plan. A denial changes nothing.
fn push_rule(
    alloc: Global,
    preds: &Numbering,
    plans: &mut Vec<Plan>,
    rule: u64,
    clause: &Clause,
) -> Result<(), Memory>
    requires { HasPlace preds.now (length plans.old.items) clause.now.head }
    ensures { OnOk result (plans.new.items ≡ with_rule preds.now plans.old.items rule clause.now.body clause.now.head) }
{
    match &clause.head {
        None => {}
        Some(head) => {
            let body = flat(alloc, clause)?;
            let plan = &mut plans[preds.place(&head.pred())];
            plan.rules.push(RulePlan { rule, body })?;
        }
    }
    Ok(())
}

/// The plans of the predicates of this numbering.
fn plans_of(alloc: Global, program: &Program, preds: &Numbering) -> Result<Vec<Plan>, Memory>
    requires { preds.now ≡ predicates program.now }
    ensures { IfOk result (λ made. made.items ≡ plans program.now) }
{
    let mut made = empty_plans(alloc, preds.as_slice())?;
    for (place, clause) in program.clauses.as_slice().iter().enumerate() {
        push_rule(alloc, preds, &mut made, place as u64 + 1, clause)?;
    }
    Ok(made)
}

/// For each predicate, in order of first occurrence in the clauses and then in the queries, its rules in order with
/// their flat bodies.
pub fn plan(alloc: Global, program: &Program) -> Result<Plans, Memory>
    ensures { IfOk result (λ made. made ≡ plans program.now) }
{
    let preds = number(alloc, program)?;
    let mut made = Sequence::new(alloc);
    for plan in plans_of(alloc, program, &preds)? {
        made.push(plan)?;
    }
    Ok(made)
}
