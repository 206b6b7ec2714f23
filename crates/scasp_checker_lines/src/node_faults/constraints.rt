//! The test of a line with a constraint.
ghost use Rattle.std.specs.Prelude.{◌≡◌, [], ◌∷◌, ◌++◌, OnOk};
ghost use Rattle.scasp_cert.specs.Trees.{test_tree};
ghost use Rattle.scasp_lines.specs.Contexts.{context as context_of};
ghost use Rattle.scasp_lines_places.specs.Places.View.{place_of};
ghost use Rattle.scasp_lines_places.specs.Dues.DueView.{due_value};
ghost use Rattle.scasp_hint.specs.Showing.{fault_of};
ghost use Rattle.scasp_unify.specs.Negations.{negated};
ghost use Rattle.scasp_checker_rules.specs.LineFaults.{node_faults};
ghost use Rattle.scasp_checker_rules.specs.Refusals.{fault_at};
ghost use Rattle.scasp_checker_answer.specs.Judged.{Judges};
ghost use Rattle.scasp_checker_lines.specs.LineFaults.Whole.{whole};

use crate::line_faults::{Common, accept_hint, knows_con};
use crate::node_faults::dues::{asks_constraint, is_fact_due};
use scasp_checker_answer::{CheckErr, want};
use scasp_checker_rules::Reason;
use scasp_lines_places::{Due, Place, negated};
use scasp_list::Memory;
use scasp_syntax::{Con, Hint};
use std::alloc::Global;

/// Puts a constraint at the end.
fn put_last(context: &mut Vec<Con>, con: Con) -> Result<(), Memory>
    ensures { OnOk result (context.new.items ≡ context.old.items ++ con ∷ []) }
{
    context.push(con)?;
    Ok(())
}

/// Tests that the hint shows the constraint to follow from the context. The list of the context is as it was then.
fn accept_shown(
    alloc: Global,
    context: &mut Vec<Con>,
    at: u64,
    here: &Place,
    con: &Con,
    hint: &Hint,
) -> Result<(), CheckErr>
    ensures judges { Judges result (fault_at at (fault_of (context.old.items ++ negated (place_of here.now).hidden con.now ∷ []) hint.now)) }
    ensures stays { OnOk result (context.new.items ≡ context.old.items) }
{
    let negation = negated(alloc, here.hidden, con)?;
    put_last(context, negation)?;
    accept_hint(alloc, at, context.as_slice(), hint)?;
    context.pop();
    Ok(())
}

/// Tests a line of a constraint, where `context` is the list of its context, which is as it was then.
pub fn accept_test(
    alloc: Global,
    common: &Common,
    context: &mut Vec<Con>,
    at: u64,
    here: &Place,
    due: &Due,
    con: &Con,
    hint: &Hint,
) -> Result<(), CheckErr>
    requires { context.old.items ≡ context_of (whole common.now).given (place_of here.now).opened }
    ensures judges { Judges result (node_faults (whole common.now) at (place_of here.now) (due_value due.now) (test_tree con.now hint.now)) }
    ensures stays { OnOk result (context.new.items ≡ context.old.items) }
{
    want(
        at,
        Reason::WrongVariable,
        knows_con(alloc, common, here, con)?,
    )?;
    want(at, Reason::WrongNode, asks_constraint(due))?;
    want(at, Reason::WrongLiteral, is_fact_due(alloc, due, con)?)?;
    accept_shown(alloc, context, at, here, con, hint)
}
