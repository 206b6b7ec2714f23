//! The tests of lines of literals by themselves.
ghost use Rattle.std.specs.Prelude.{◌≡◌, IfOk};
ghost use Rattle.scasp_cert.specs.Trees.{loop_tree};
ghost use Rattle.scasp_lines_places.specs.Places.View.{place_of};
ghost use Rattle.scasp_lines_places.specs.Dues.DueView.{due_value};
ghost use Rattle.scasp_syntax.specs.Programs.{is_rule_of, numbered, pred_of};
ghost use Rattle.scasp_checker_rules.specs.Ancestors.{entry_at, is_entry_of};
ghost use Rattle.scasp_checker_rules.specs.LineFaults.{is_instance, node_faults};
ghost use Rattle.scasp_checker_rules.specs.Refusals.{of_some};
ghost use Rattle.scasp_checker_answer.specs.Judged.{Judges};
ghost use Rattle.scasp_checker_lines.specs.LineFaults.Whole.{whole};
ghost use Rattle.scasp_checker_lines.specs.NodeFaults.Nodes.{literal_tests, pos_tests, seen_tests};

use crate::line_faults::{Common, entry_at, is_entry_of, is_negated_before, knows_atom};
use crate::node_faults::dues::{asks_literal, asks_positive, is_due};
use scasp_checker_answer::{CheckErr, is_instance, want};
use scasp_checker_rules::Reason;
use scasp_lines_places::{Due, Place};
use scasp_list::Memory;
use scasp_syntax::{Atom, Lit, Program, Terms};
use std::alloc::Global;

/// Tests a literal on a line: its variables may stand there, it is of a kind that is due there, and it is the one that is.
pub fn accept_literal(
    alloc: Global,
    common: &Common,
    at: u64,
    here: &Place,
    due: &Due,
    is_kind: bool,
    positive: bool,
    atom: &Atom,
    terms: &Terms,
) -> Result<(), CheckErr>
    ensures { Judges result (literal_tests (whole common.now) at (place_of here.now) (due_value due.now) is_kind positive atom.now terms.now) }
{
    let is_known = knows_atom(alloc, common, here, atom, terms)?;
    want(at, Reason::WrongVariable, is_known)?;
    want(at, Reason::WrongNode, is_kind)?;
    want(
        at,
        Reason::WrongLiteral,
        is_due(alloc, due, positive, atom)?,
    )
}

/// Whether the clause of this number is a rule of the atom's predicate.
fn names_rule(program: &Program, rule: u64, atom: &Atom) -> bool
    ensures { result ≡ of_some (numbered program.now.clauses rule) (is_rule_of (pred_of atom.now)) }
{
    match program.clause(rule) {
        Some(clause) => clause.is_rule_of(atom.pred()),
        None => false,
    }
}

/// Whether the atom is the head of the clause of this number under the terms.
fn applies_rule(
    alloc: Global,
    program: &Program,
    rule: u64,
    terms: &Terms,
    atom: &Atom,
) -> Result<bool, Memory>
    ensures { IfOk result (λ is. is ≡ of_some (numbered program.now.clauses rule) (is_instance terms.now atom.now)) }
{
    match program.clause(rule) {
        Some(clause) => is_instance(alloc, terms, atom, clause),
        None => Ok(false),
    }
}

/// Tests a line of a positive literal by itself, but for the number of its children.
pub fn accept_positive(
    alloc: Global,
    common: &Common,
    at: u64,
    here: &Place,
    due: &Due,
    atom: &Atom,
    rule: u64,
    terms: &Terms,
) -> Result<(), CheckErr>
    ensures { Judges result (pos_tests (whole common.now) at (place_of here.now) (due_value due.now) atom.now rule terms.now) }
{
    accept_literal(
        alloc,
        common,
        at,
        here,
        due,
        asks_positive(due),
        true,
        atom,
        terms,
    )?;
    want(
        at,
        Reason::WrongRule,
        names_rule(common.program, rule, atom),
    )?;
    let applies = applies_rule(alloc, common.program, rule, terms, atom)?;
    want(at, Reason::WrongInstance, applies)
}

/// Whether the literal above on line `to` is this one, as its atom is replaced here.
fn repeats(alloc: Global, here: &Place, lit: &Lit, to: u64) -> Result<bool, Memory>
    ensures { IfOk result (λ is. is ≡ of_some (entry_at to (place_of here.now).above) (is_entry_of (place_of here.now) lit.now)) }
{
    match entry_at(to, &here.above) {
        Some(entry) => is_entry_of(alloc, here, lit, entry),
        None => Ok(false),
    }
}

/// Tests a line of a loop.
pub fn accept_loop(
    alloc: Global,
    common: &Common,
    at: u64,
    here: &Place,
    due: &Due,
    lit: &Lit,
    to: u64,
) -> Result<(), CheckErr>
    ensures { Judges result (node_faults (whole common.now) at (place_of here.now) (due_value due.now) (loop_tree lit.now to)) }
{
    let terms = Terms::new(alloc);
    accept_literal(
        alloc,
        common,
        at,
        here,
        due,
        asks_literal(due),
        lit.positive,
        &lit.atom,
        &terms,
    )?;
    want(at, Reason::NoAncestor, repeats(alloc, here, lit, to)?)?;
    want(
        at,
        Reason::LoopWithoutNegation,
        !lit.positive || is_negated_before(to, &here.above),
    )
}

/// Tests a line of a literal that was seen before, where it is told whether it was shown there.
pub fn accept_seen(
    alloc: Global,
    common: &Common,
    at: u64,
    here: &Place,
    due: &Due,
    lit: &Lit,
    is_shown: bool,
) -> Result<(), CheckErr>
    ensures { Judges result (seen_tests (whole common.now) at (place_of here.now) (due_value due.now) lit.now is_shown) }
{
    let terms = Terms::new(alloc);
    accept_literal(
        alloc,
        common,
        at,
        here,
        due,
        asks_literal(due),
        lit.positive,
        &lit.atom,
        &terms,
    )?;
    want(at, Reason::NotInScope, is_shown)
}
